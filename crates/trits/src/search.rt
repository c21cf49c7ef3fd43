// Select on a proper image: the place of a trit by its number.
ghost use Rattle.std.specs.Prelude.{◌≡◌, ◌*◌, ◌≤◌, ◌<◌};
ghost use Rattle.format.specs.Lists.{count_in};
ghost use Rattle.format.specs.Trits.{select, tryte_count, Selected};
ghost use Rattle.format.specs.Proper.{trits_of};
ghost use Rattle.format.specs.Answers.{found_place};
ghost use Rattle.trits.specs.Search.{Spotted, PlaceIn};

use crate::digits::tryte_count;
use crate::image::Image;
use crate::{Spot, last_tryte};

// The place of the `t` number `k` in tryte `x`: how many of its trits, but the last, have fewer than `k` up to themselves.
fn place_in(x: usize, t: usize, k: usize) -> usize
    requires { (x < 243) × (t < 3) × (0 < k) × (k ≤ tryte_count t x 5) }
    ensures { PlaceIn x t k result }
{
    let a = usize::from(x % 3 == t);
    let b = a + usize::from(x / 3 % 3 == t);
    let c = b + usize::from(x / 9 % 3 == t);
    let d = c + usize::from(x / 27 % 3 == t);
    usize::from(a < k) + usize::from(b < k) + usize::from(c < k) + usize::from(d < k)
}

impl Image<'_> {
    // How many `t` there are.
    fn total(&self, t: usize) -> usize
        requires { t < 3 }
        ensures { result ≡ count_in t (trits_of self.now.bytes.now) }
    {
        match t {
            0 => self.lay.nodes + 1,
            1 => self.lay.nodes,
            _ => self.lay.shadows,
        }
    }

    // The tryte in which the `t` number `j` stands, from its block: four are counted, found or not, so that no branch is to be guessed.
    fn find_tryte(&self, t: usize, j: usize, s: Spot) -> Spot
        requires { (t < 3) × (Spotted 25 t (trits_of self.now.bytes.now) j s) }
        ensures { Spotted 5 t (trits_of self.now.bytes.now) j result }
    {
        let first = 5 * s.at;
        let last = last_tryte(self.lay.trits, first);
        let mut n = s.before;
        let mut found = Spot {
            at: first,
            before: n,
        };
        for q in first..last {
            n += tryte_count(self.tryte(q), t);
            if n < j {
                found = Spot {
                    at: q + 1,
                    before: n,
                };
            }
        }
        found
    }

    // The place of the `t` number `j`, from its tryte.
    fn find_trit(&self, t: usize, j: usize, s: Spot) -> usize
        requires { (t < 3) × (Spotted 5 t (trits_of self.now.bytes.now) j s) }
        ensures { Selected t (trits_of self.now.bytes.now) j result }
    {
        5 * s.at + place_in(self.tryte(s.at), t, j - s.before)
    }

    // The place of the `t` number `j`, where there is one: through the levels to its block, its tryte and itself.
    fn find(&self, t: usize, j: usize) -> usize
        requires { (t < 3) × (0 < j) × (j ≤ count_in t (trits_of self.now.bytes.now)) }
        ensures { Selected t (trits_of self.now.bytes.now) j result }
    {
        let six = self.far().halve(t, j, Spot { at: 0, before: 0 });
        let seven = self.middle().halve(t, j, six);
        let eight = self.near().halve(t, j, seven);
        let tryte = self.find_tryte(t, j, eight);
        self.find_trit(t, j, tryte)
    }

    // The place of the `t` number `j`; nothing where `j` is 0 or more than there are.
    pub fn select(&self, t: usize, j: usize) -> Option<usize>
        requires { t < 3 }
        ensures { found_place result ≡ select t (trits_of self.now.bytes.now) j }
    {
        if j == 0 || self.total(t) < j {
            return None;
        }
        Some(self.find(t, j))
    }
}
