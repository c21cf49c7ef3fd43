// The layout of a proper image and its three levels of samples; trits, rank and select on it are in `image` and `search`.
// A tryte is five trits in a byte; a block is 25 trits, five trytes. A trit of an image is a number, 0, 1 or 2, and no enum: it is a digit of its
// tryte, and the rules count by it and ask for it by number.
#![tactic(auto)]

pub mod digits;
pub mod image;
pub mod level;
pub mod plan;
pub mod search;

ghost use Rattle.std.specs.Prelude.{◌≡◌, ◌+◌, ◌*◌, ◌^◌, ◌≤◌, ◌<◌};
ghost use Rattle.trits.specs.Layout.{layout, samples_of, far_of, middle_of, near_of};
ghost use Rattle.trits.specs.Search.{sum_of};

use format::{FAR, MIDDLE, NEAR};
pub use plan::Plan;
use std::ops::Add;

// L, n, c, k and h, and where the contents of each section start.
#[derive(Clone, Copy)]
pub struct Layout {
    pub trits: usize,
    pub nodes: usize,
    pub roots: usize,
    pub shadows: usize,
    pub marked: usize,
    pub at1: usize,
    pub at2: usize,
    pub at3: usize,
    pub at4: usize,
    pub at5: usize,
    pub at6: usize,
    pub at7: usize,
    pub at8: usize,
    pub at9: usize,
}

// A level of samples: pairs, zeros then ones, of `width` bytes a number from byte `at` on, before multiples 0 to `last` of `step`, each counted
// from the last multiple of `fan` steps.
#[derive(Clone, Copy)]
pub struct Samples {
    pub at: usize,
    pub width: usize,
    pub step: usize,
    pub fan: usize,
    pub last: usize,
}

impl Samples {
    // The samples of a plan from byte `at` on, over so many trits.
    fn of(plan: Plan, at: usize, trits: usize) -> Samples
        requires { 0 < plan.step }
        ensures { result ≡ samples_of plan at trits }
    {
        Samples {
            at,
            width: plan.width,
            step: plan.step,
            fan: plan.fan,
            last: trits / plan.step,
        }
    }
}

// Each says once which plan goes with which place; a function over plans would be handed both.
impl Layout {
    // The samples of section 6.
    pub fn far(&self) -> Samples
        ensures { result ≡ far_of self.now }
    {
        Samples::of(Plan::FAR, self.at6, self.trits)
    }

    // The samples of section 7.
    pub fn middle(&self) -> Samples
        ensures { result ≡ middle_of self.now }
    {
        Samples::of(Plan::MIDDLE, self.at7, self.trits)
    }

    // The samples of section 8.
    pub fn near(&self) -> Samples
        ensures { result ≡ near_of self.now }
    {
        Samples::of(Plan::NEAR, self.at8, self.trits)
    }
}

// The zeros and ones before a place, or in part of a tryte.
#[derive(Clone, Copy)]
pub struct Ranks {
    pub zeros: usize,
    pub ones: usize,
}

impl Add for Ranks {
    type Output = Ranks;

    ghost can_add = { λ p q. (p.zeros + q.zeros < 2 ^ 64) × (p.ones + q.ones < 2 ^ 64) };

    ghost add_gives = { λ p q r. r ≡ sum_of p q };

    fn add(self, more: Ranks) -> Ranks {
        Ranks {
            zeros: self.zeros + more.zeros,
            ones: self.ones + more.ones,
        }
    }
}

// Multiple `at` of a step, and how many of a trit stand before it.
#[derive(Clone, Copy)]
pub struct Spot {
    pub at: usize,
    pub before: usize,
}

// The layout of an image with so many trits, nodes, roots, shadows and marked nodes.
pub fn lay_out(trits: usize, nodes: usize, roots: usize, shadows: usize, marked: usize) -> Layout
    requires { (trits ≤ 125536) × (nodes ≤ 30000) × (shadows ≤ 125536) × (marked ≤ 30000) }
    ensures { result ≡ layout trits nodes roots shadows marked }
{
    let words = nodes.div_ceil(64);
    let at2 = 4 + trits.div_ceil(5) + 4;
    let at3 = at2 + 2 * shadows + 4;
    let at4 = at3 + 8 * words + 4;
    let at5 = at4 + 4 * (marked + 1) + 4;
    let at6 = at5 + 4 * shadows + 4;
    let at7 = at6 + 4 * (2 * (trits / FAR + 1)) + 4;
    let at8 = at7 + 2 * (2 * (trits / MIDDLE + 1)) + 4;
    let at9 = at8 + 2 * (trits / NEAR + 1) + 4;
    Layout {
        trits,
        nodes,
        roots,
        shadows,
        marked,
        at1: 4,
        at2,
        at3,
        at4,
        at5,
        at6,
        at7,
        at8,
        at9,
    }
}

// The last of the five trytes from `first` on, or the last that there is.
pub fn last_tryte(trits: usize, first: usize) -> usize
    requires { (5 * first < trits) × (trits ≤ 125536) }
    ensures { (first ≤ result) × (result ≤ first + 4) × (5 * result < trits) × (result < first + 4 → trits ≤ 5 * (result + 1)) }
{
    (first + 4).min((trits - 1) / 5)
}
