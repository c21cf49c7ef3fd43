// One level of samples of a proper image.
ghost use Rattle.std.specs.Prelude.{◌≡◌, ◌≢◌, ◌+◌, ◌*◌, ◌/◌, ◌≤◌, ◌<◌, length};
ghost use Rattle.format.specs.Trits.{rank};
ghost use Rattle.format.specs.Proper.{trits_of};
ghost use Rattle.format.specs.Image.{read};
ghost use Rattle.trits.specs.Search.{Sampled, Spotted};

use crate::{Samples, Spot};
use little::get;

// Number `i` of those of 1, 2 or 4 bytes that stand from byte `at` on. The width is a value of the plan, so it is matched here.
pub fn number(bytes: &[u8], at: usize, width: usize, i: usize) -> usize
    requires { (width ≢ 1 → width ≢ 2 → width ≡ 4) × (at + width * i + width ≤ length bytes.now) }
    ensures { result ≡ read width (at + width * i) bytes.now }
{
    match width {
        1 => get::<1>(bytes, at + i),
        2 => get::<2>(bytes, at + 2 * i),
        _ => get::<4>(bytes, at + 4 * i),
    }
}

// The bytes of a proper image, and a level of its samples.
#[derive(Clone, Copy)]
pub struct Level<'a> {
    pub bytes: &'a [u8],
    pub samples: Samples,
    pub ghost sampled: { Sampled bytes.now samples },
}

impl Level<'_> {
    // Number `i` of the level.
    fn entry(&self, i: usize) -> usize
        requires { i < 2 * (self.now.samples.last + 1) }
        ensures { result ≡ read self.now.samples.width (self.now.samples.at + self.now.samples.width * i) self.now.bytes.now }
    {
        number(self.bytes, self.samples.at, self.samples.width, i)
    }

    // How often `t` stands between multiples `first` and `q` of the step, where the sample at `q` counts from `first`.
    pub fn counted(&self, t: usize, first: usize, q: usize) -> usize
        requires { (t < 3) × (q ≤ self.now.samples.last) × (first ≡ self.now.samples.fan * (q / self.now.samples.fan)) }
        ensures { rank t (trits_of self.now.bytes.now) (self.now.samples.step * first) + result ≡ rank t (trits_of self.now.bytes.now) (self.now.samples.step * q) }
    {
        let pair = 2 * q;
        if t < 2 {
            return self.entry(pair + t);
        }
        let zeros = self.entry(pair);
        let ones = self.entry(pair + 1);
        self.samples.step * (q - first) - zeros - ones
    }

    // The spot of the `t` number `j` at the step, from its spot at the step of the level above: by halving.
    pub fn halve(&self, t: usize, j: usize, above: Spot) -> Spot
        requires { (t < 3) × Spotted (self.now.samples.fan * self.now.samples.step) t (trits_of self.now.bytes.now) j above }
        ensures { Spotted self.now.samples.step t (trits_of self.now.bytes.now) j result }
    {
        let fan = self.samples.fan;
        let first = fan * above.at;
        let mut found = Spot {
            at: first,
            before: above.before,
        };
        let mut len = fan.min(self.samples.last - first + 1);
        while 1 < len {
            let mid = found.at + len / 2;
            let x = above.before + self.counted(t, first, mid);
            len -= len / 2;
            if x < j {
                found = Spot { at: mid, before: x };
            }
        }
        found
    }
}
