// Sections 4 and 5 by keys. A place's key is its node, then the place; section 5 is right exactly if its k places hold twos and their keys rise.
ghost use Rattle.std.specs.Prelude.{◌≡◌, ◌+◌, ◌*◌, ◌≤◌, ◌<◌, length};
ghost use Rattle.format.specs.Lists.{over, count_in};
ghost use Rattle.format.specs.Trits.{rank, tryte_count};
ghost use Rattle.format.specs.Image.{read};
ghost use Rattle.proper.specs.Held.{trits_in, shadows_in};
ghost use Rattle.proper.specs.Places.{TwoTable, step_for, Spaced, two_samples, TwosAt, Answered, number_is, Long, both_right};

use crate::started::BLOCK;
use crate::walk::{Trits, Walk};
use little::get;
use trits::digits::{trit, tryte_count, tryte_cut};

// The factor of a key's node: the least power of 2 above every place, of which an image has 125,536.
const KEY_FACTOR: usize = 131072;

// How many twos each tryte has.
fn two_table() -> [u8; 243]
    ensures { TwoTable result }
{
    let mut counts = [0; 243];
    for (x, count) in counts.iter_mut().enumerate() {
        *count = tryte_count(x, 2) as u8;
    }
    counts
}

// The twos of tryte `x`.
fn two_count(counts: &[u8; 243], x: usize) -> usize
    requires { TwoTable counts.now × (x < 243) }
    ensures { (result ≡ tryte_count 2 x 5) × (result ≤ 5) }
{
    usize::from(counts[x])
}

// The twos before tryte `end`, from those before tryte `from`.
fn twos_to(trits: &Trits, counts: &[u8; 243], from: usize, end: usize, before: usize) -> usize
    requires { TwoTable counts.now × (from ≤ end) × (5 * end ≤ trits.now.count) × (before ≡ rank 2 (trits_in trits.now) (5 * from)) }
    ensures { result ≡ rank 2 (trits_in trits.now) (5 * end) }
{
    let mut n = before;
    for &byte in &trits.bytes[from..end] {
        n += two_count(counts, usize::from(byte));
    }
    n
}

// How many trytes lie from sample to sample: 8 where 2,048 samples are then enough, with a few trits to spare, else 13.
fn step_for(l: usize) -> usize
    ensures { result ≡ step_for l }
{
    if l < 81880 { 8 } else { 13 }
}

// Puts the twos before every tryte whose number is a multiple of `step`; past the whole trytes, the twos of all of these.
fn sample_twos(trits: &Trits, counts: &[u8; 243], step: usize, twos: &mut [u16; BLOCK])
    requires { TwoTable counts.now × (length twos.old ≡ 2048) × Spaced trits.now.count step × (count_in 2 (trits_in trits.now) ≤ 65535) }
    ensures { twos.new ≡ over (two_samples (trits_in trits.now) step) twos.old }
{
    let whole = trits.count / 5;
    let last = (whole + 6) / step;
    let mut n = 0;
    for i in 0..last {
        twos[i] = n as u16;
        let from = whole.min(step * i);
        let end = whole.min(step * (i + 1));
        n = twos_to(trits, counts, from, end, n);
    }
    twos[last] = n as u16;
}

// A walk, and the twos before every tryte whose number is a multiple of `step`, as samples to count on from.
#[derive(Clone, Copy)]
struct Twos<'a> {
    walk: Walk<'a>,
    counts: &'a [u8; 243],
    samples: &'a [u16; BLOCK],
    step: usize,
    ghost counted: { TwoTable counts.now },
    ghost spaced: { Spaced walk.trits.count step },
    ghost sampled: { TwosAt (trits_in walk.trits) step samples.now },
}

impl<'a> Twos<'a> {
    // The twos of trytes `from` up to `end`, which are at most HALF, in HALF turns: no turn is to be guessed, since places come in no order.
    fn between<const HALF: usize>(&self, from: usize, end: usize) -> usize
        requires { (from ≤ end) × (end ≤ from + HALF) × (HALF ≤ 6) × (5 * end ≤ self.now.walk.trits.count) × (0 < self.now.walk.trits.count) }
        ensures { rank 2 (trits_in self.now.walk.trits) (5 * from) + result ≡ rank 2 (trits_in self.now.walk.trits) (5 * end) }
    {
        let bytes = self.walk.trits.bytes;
        let last = bytes.len() - 1;
        let mut n = 0;
        for d in 0..HALF {
            let q = from + d;
            let x = usize::from(bytes[q.min(last)]);
            n += usize::from(q < end) * two_count(self.counts, x);
        }
        n
    }

    // The twos before tryte `q`, by the nearest sample, before or behind it. The divisor and the number of turns are constants.
    fn near<const STEP: usize, const HALF: usize>(&self, q: usize) -> usize
        requires { (HALF ≤ 6) × (STEP ≤ 2 * HALF + 1) × (self.now.step ≡ STEP) × (5 * q < self.now.walk.trits.count) }
        ensures { result ≡ rank 2 (trits_in self.now.walk.trits) (5 * q) }
    {
        let i = (q + HALF) / STEP;
        let sample = usize::from(self.samples[i]);
        let at = (self.walk.trits.count / 5).min(STEP * i);
        let from = q.min(at);
        let n = self.between::<HALF>(from, at + q - from);
        if q < at { sample - n } else { sample + n }
    }

    // The twos before place `p`: those before its tryte, and those of the tryte cut behind its first trits.
    fn before(&self, p: usize) -> usize
        requires { p < self.now.walk.trits.count }
        ensures { result ≡ rank 2 (trits_in self.now.walk.trits) p }
    {
        let q = p / 5;
        let whole = if self.step == 8 {
            self.near::<8, 4>(q)
        } else {
            self.near::<13, 6>(q)
        };
        let front = tryte_cut(usize::from(self.walk.trits.bytes[q]), p % 5);
        whole + two_count(self.counts, front)
    }

    // The place of a 2 in entry `e` of section 5 has a key of at least `low`: that key.
    fn key(&self, part: &[u8], e: usize, low: usize) -> Option<usize>
        requires { 4 * e + 4 ≤ length part.now }
        ensures { Answered (trits_in self.now.walk.trits) (shadows_in self.now.walk) low (read 4 (4 * e) part.now) result }
    {
        let p = get::<4>(part, 4 * e);
        let trits = self.walk.trits;
        if trits.count <= p {
            return None;
        }
        if trit(trits.bytes, p) != 2 {
            return None;
        }
        let j = self.before(p);
        let key = KEY_FACTOR * get::<2>(self.walk.shadows, 2 * j) + p;
        if key < low {
            return None;
        }
        Some(key)
    }
}

// Whether a section of 4 bytes a number has number `j`, and that is `x`.
fn number_is(part: &[u8], j: usize, x: usize) -> bool
    requires { j ≤ 65535 }
    ensures { result ≡ number_is part.now j x }
{
    4 * j + 4 <= part.len() && get::<4>(part, 4 * j) == x
}

// Sections 4 and 5 by keys, with the samples: where a place's node is another than the one before, its index is the next number of section 4.
fn keys_right(twos: &Twos, firsts: &[u8], part: &[u8]) -> bool
    requires { Long (trits_in twos.now.walk.trits) (shadows_in twos.now.walk) firsts.now part.now }
    ensures { result ≡ both_right (trits_in twos.now.walk.trits) (shadows_in twos.now.walk) firsts.now part.now }
{
    let many = part.len() / 4;
    let mut low = 0;
    let mut j = 0;
    for e in 0..many {
        let Some(key) = twos.key(part, e, low) else {
            return false;
        };
        let before = low / KEY_FACTOR;
        low = key + 1;
        if before < key / KEY_FACTOR {
            if !number_is(firsts, j, e) {
                return false;
            }
            j += 1;
        }
    }
    number_is(firsts, j, many)
}

// Sections 4 and 5: the places of the twos, grouped by node rising, then by place; and the index of each node's first place, then k. `twos` gets
// the samples.
pub fn both_by_keys(walk: &Walk, firsts: &[u8], part: &[u8], twos: &mut [u16; BLOCK]) -> bool
    requires { (length twos.old ≡ 2048) × Long (trits_in walk.now.trits) (shadows_in walk.now) firsts.now part.now }
    ensures { (result ≡ both_right (trits_in walk.now.trits) (shadows_in walk.now) firsts.now part.now)
        × (twos.new ≡ over (two_samples (trits_in walk.now.trits) (step_for walk.now.trits.count)) twos.old) }
{
    let counts = two_table();
    let step = step_for(walk.trits.count);
    sample_twos(&walk.trits, &counts, step, twos);
    let sampled = Twos {
        walk: *walk,
        counts: &counts,
        samples: twos,
        step,
    };
    keys_right(&sampled, firsts, part)
}
