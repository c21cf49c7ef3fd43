// Section 1 of an image: its own rules (23), then the limits (22), and the sizes that its trits give. The bytes and L stand beside one another here:
// the type `Trits` says that section 1 has passed.
ghost use Rattle.std.specs.Prelude.{◌≡◌, true, ◌+◌, ◌≤◌, ◌<◌, length};
ghost use Rattle.format.specs.Lists.{up};
ghost use Rattle.format.specs.Trits.{untrytes};
ghost use Rattle.format.specs.Proper.{bytes_low, padded};
ghost use Rattle.samples.specs.Lent.{TritsIn};
ghost use Rattle.proper.specs.FirstSays.{FirstSays, RootsSay, NodesSay, Ballot, Balloted};

use format::{MAX_EDGES, MAX_NODES, Refusal};
use trits::digits::{trit, tryte_ranks};

// The sizes that section 1 gives.
#[derive(Clone, Copy)]
pub struct Sizes {
    pub nodes: usize,
    pub roots: usize,
    pub shadows: usize,
}

// A place, and the zeros and ones before it.
#[derive(Clone, Copy)]
struct Count {
    zeros: usize,
    ones: usize,
    p: usize,
}

// Whether no byte is above 242.
fn bytes_low(bs: &[u8]) -> bool
    ensures { result ≡ bytes_low bs.now }
{
    for &b in bs {
        if b > 242 {
            return false;
        }
    }
    true
}

// Whether the trits of the bytes past the first `l` are 0.
fn zero_padded(bs: &[u8], l: usize) -> bool
    requires { (length bs.now ≡ up l 5) × (l ≤ 125536) }
    ensures { result ≡ padded l bs.now }
{
    (l..5 * bs.len()).all(|p| trit(bs, p) == 0)
}

// The number of roots: the ones before the first zero, where no 2 stands.
fn roots_given(bs: &[u8], l: usize) -> Option<usize>
    requires { (length bs.now ≡ up l 5) × (l ≤ 125536) }
    ensures { RootsSay (untrytes l bs.now) result }
{
    for p in 0..l {
        match trit(bs, p) {
            0 => return Some(p),
            1 => {}
            _ => return None,
        }
    }
    None
}

impl Count {
    // One trit on.
    fn trit_on(self, bs: &[u8], l: usize) -> Count
        requires { TritsIn (untrytes l bs.now) bs.now × Balloted l bs.now self }
        ensures { (result.p ≡ self.p + 1) × Ballot (untrytes l bs.now) result.p result.zeros result.ones }
    {
        let t = trit(bs, self.p);
        Count {
            zeros: self.zeros + usize::from(t == 0),
            ones: self.ones + usize::from(t == 1),
            p: self.p + 1,
        }
    }

    // A whole tryte on where none of its zeros can come too early, else one trit.
    fn onward(self, bs: &[u8], l: usize) -> Count
        requires { TritsIn (untrytes l bs.now) bs.now × Balloted l bs.now self }
        ensures { (self.p < result.p) × Ballot (untrytes l bs.now) result.p result.zeros result.ones }
    {
        let q = self.p / 5;
        if l < self.p + 5 || self.p != 5 * q {
            return self.trit_on(bs, l);
        }
        let more = tryte_ranks(usize::from(bs[q]));
        let zeros = self.zeros + more.zeros;
        if self.ones < zeros {
            return self.trit_on(bs, l);
        }
        Count {
            zeros,
            ones: self.ones + more.ones,
            p: self.p + 5,
        }
    }
}

// The number of nodes: the ones. While trits follow, the zeros are no more than the ones; at the end they are one more.
fn nodes_given(bs: &[u8], l: usize) -> Option<usize>
    requires { (length bs.now ≡ up l 5) × (l ≤ 125536)
        × (bytes_low bs.now ≡ true) × (padded l bs.now ≡ true) }
    ensures { NodesSay (untrytes l bs.now) result }
{
    let mut c = Count {
        zeros: 0,
        ones: 0,
        p: 0,
    };
    // Not a for: a turn goes on by a trit or by a tryte.
    while c.p < l {
        if c.ones < c.zeros {
            return None;
        }
        c = c.onward(bs, l);
    }
    if c.ones + 1 != c.zeros {
        return None;
    }
    Some(c.ones)
}

// Section 1: its own rules (23), then n and m (22).
pub fn section1(bs: &[u8], l: usize) -> Result<Sizes, Refusal>
    requires { (length bs.now ≡ up l 5) × (1 ≤ l) × (l ≤ 125536) }
    ensures { FirstSays l bs.now result }
{
    if !bytes_low(bs) || !zero_padded(bs, l) {
        return Err(Refusal::TritsWrong);
    }
    let roots = roots_given(bs, l).ok_or(Refusal::TritsWrong)?;
    let nodes = nodes_given(bs, l).ok_or(Refusal::TritsWrong)?;
    let too_many = nodes > MAX_NODES;
    if too_many {
        return Err(Refusal::ImageTooLarge);
    }
    if l - nodes - roots - 1 > MAX_EDGES {
        return Err(Refusal::ImageTooLarge);
    }
    Ok(Sizes {
        nodes,
        roots,
        shadows: l - 2 * nodes - 1,
    })
}
