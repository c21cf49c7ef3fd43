// A proper image with its layout, and trits and rank on it: one sample of each level, then trytes, then trits.
ghost use Rattle.std.specs.Prelude.{◌≡◌, ◌+◌, ◌*◌, ◌/◌, ◌≤◌, ◌<◌, length, get_or};
ghost use Rattle.format.specs.Trits.{rank};
ghost use Rattle.format.specs.Proper.{check_image, trits_of};
ghost use Rattle.trits.specs.Layout.{layout_of, Laid, far_of, middle_of, near_of};
ghost use Rattle.trits.specs.Search.{Tryte, ranks_of};

use crate::digits::{digit, tryte_front, tryte_ranks};
use crate::level::Level;
use crate::{Layout, Ranks, last_tryte};
use format::{FAR, MIDDLE, NEAR};

// The bytes of a proper image, and their layout.
#[derive(Clone, Copy)]
pub struct Image<'a> {
    pub bytes: &'a [u8],
    pub lay: Layout,
    pub ghost laid: { Laid bytes.now lay },
}

impl<'a> Image<'a> {
    // The image in bytes that the check accepts, with their layout.
    pub fn of(bytes: &'a [u8], lay: Layout) -> Image<'a>
        requires { (check_image bytes.now ≡ 0) × (lay ≡ layout_of bytes.now) }
        ensures { (result.bytes ≡ bytes.entry) × (result.lay ≡ lay) }
    {
        Image { bytes, lay }
    }

    // Section 6.
    pub(crate) fn far(&self) -> Level<'a>
        ensures { (result.bytes.now ≡ self.now.bytes.now) × (result.samples ≡ far_of self.now.lay) }
    {
        Level {
            bytes: self.bytes,
            samples: self.lay.far(),
        }
    }

    // Section 7.
    pub(crate) fn middle(&self) -> Level<'a>
        ensures { (result.bytes.now ≡ self.now.bytes.now) × (result.samples ≡ middle_of self.now.lay) }
    {
        Level {
            bytes: self.bytes,
            samples: self.lay.middle(),
        }
    }

    // Section 8.
    pub(crate) fn near(&self) -> Level<'a>
        ensures { (result.bytes.now ≡ self.now.bytes.now) × (result.samples ≡ near_of self.now.lay) }
    {
        Level {
            bytes: self.bytes,
            samples: self.lay.near(),
        }
    }
}

impl Image<'_> {
    // Tryte `q` of section 1.
    pub fn tryte(&self, q: usize) -> usize
        requires { 5 * q < length (trits_of self.now.bytes.now) }
        ensures { Tryte (trits_of self.now.bytes.now) q result }
    {
        usize::from(self.bytes[self.lay.at1 + q])
    }

    // Trit `p % 5` of tryte `p / 5`.
    pub fn trit(&self, p: usize) -> usize
        requires { p < length (trits_of self.now.bytes.now) }
        ensures { result ≡ get_or (trits_of self.now.bytes.now) p 0 }
    {
        digit(self.tryte(p / 5), p % 5)
    }

    // Rank of `t` before block `g`: one sample of each level.
    fn rank_block(&self, t: usize, g: usize) -> usize
        requires { (t < 3) × (g ≤ length (trits_of self.now.bytes.now) / 25) }
        ensures { result ≡ rank t (trits_of self.now.bytes.now) (25 * g) }
    {
        let q6 = g / (FAR / NEAR);
        let q7 = g / (MIDDLE / NEAR);
        let six = self.far().counted(t, 0, q6);
        let seven = self.middle().counted(t, FAR / MIDDLE * q6, q7);
        let eight = self.near().counted(t, MIDDLE / NEAR * q7, g);
        six + seven + eight
    }

    // The trytes from `from` up to `end` on top of the zeros and ones before `from`: at most four. All five of the block are read, so that no branch is to be guessed.
    fn rank_trytes(&self, from: usize, end: usize, before: Ranks) -> Ranks
        requires { (from ≤ end) × (end ≤ from + 4) × (5 * end ≤ length (trits_of self.now.bytes.now)) × (before ≡ ranks_of (trits_of self.now.bytes.now) (5 * from)) }
        ensures { result ≡ ranks_of (trits_of self.now.bytes.now) (5 * end) }
    {
        let trits = self.lay.trits;
        if trits <= 5 * from {
            return before;
        }
        let last = last_tryte(trits, from);
        let mut sum = before;
        for q in from..=last {
            let more = tryte_ranks(self.tryte(q));
            if q < end {
                sum = sum + more;
            }
        }
        sum
    }

    // The zeros and ones before place `p`, up to L: its block's, at most four whole trytes, and part of one.
    pub fn rank_both(&self, p: usize) -> Ranks
        requires { p ≤ length (trits_of self.now.bytes.now) }
        ensures { result ≡ ranks_of (trits_of self.now.bytes.now) p }
    {
        let g = p / NEAR;
        let end = p / 5;
        let zeros = self.rank_block(0, g);
        let ones = self.rank_block(1, g);
        let whole = self.rank_trytes(5 * g, end, Ranks { zeros, ones });
        let r = p % 5;
        if r == 0 {
            return whole;
        }
        let part = tryte_front(self.tryte(end), r);
        whole + part
    }

    // Rank of `t` before place `p`, up to L.
    pub fn rank(&self, t: usize, p: usize) -> usize
        requires { (t < 3) × (p ≤ length (trits_of self.now.bytes.now)) }
        ensures { result ≡ rank t (trits_of self.now.bytes.now) p }
    {
        let before = self.rank_both(p);
        match t {
            0 => before.zeros,
            1 => before.ones,
            _ => p - before.zeros - before.ones,
        }
    }
}
