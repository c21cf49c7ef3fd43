// Sections 6, 7 and 8: pairs of counts at every multiple of a step.
ghost use Rattle.std.specs.Prelude.{◌≡◌, ◌+◌, ◌*◌, ◌≤◌, length};
ghost use Rattle.format.specs.Lists.{same};
ghost use Rattle.format.specs.Image.{bytes, pairs, last_multiple};
ghost use Rattle.samples.specs.Samples.{Width};
ghost use Rattle.proper.specs.Held.{trits_in};
ghost use Rattle.proper.specs.Samples.{PairsIn, pair_holds};

use crate::walk::Trits;
use samples::{Counts, next_counts};
use trits::Plan;
use trits::level::number;

// Whether the pair of sample `q` is the zeros and ones counted up to it.
fn pair_right(part: &[u8], width: usize, q: usize, c: Counts) -> bool
    requires { Width width × (width * (2 * (q + 1)) ≤ length part.now) }
    ensures { result ≡ pair_holds width q part.now c.zeros c.ones }
{
    number(part, 0, width, 2 * q) == c.zeros && number(part, 0, width, 2 * q + 1) == c.ones
}

// Section 6, 7 or 8: a pair of numbers before every multiple of the plan's step, counted from the last multiple of its `fan` steps.
pub fn samples_right(trits: &Trits, part: &[u8], plan: Plan) -> bool
    requires { PairsIn (trits_in trits.now) plan.step plan.fan plan.width part.now }
    ensures { result ≡ same part.now (bytes plan.width (pairs plan.step (last_multiple (plan.step * plan.fan)) (trits_in trits.now))) }
{
    let last = trits.count / plan.step;
    let mut c = Counts::NONE;
    for q in 0..last {
        if !pair_right(part, plan.width, q, c) {
            return false;
        }
        c = next_counts(trits.bytes, plan, q, c);
    }
    pair_right(part, plan.width, last, c)
}
