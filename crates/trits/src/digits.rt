// The five trits of one tryte, by the table and one by one.
ghost use Rattle.std.specs.Prelude.{◌≡◌, ◌+◌, ◌*◌, ◌/◌, ◌%◌, ◌^◌, ◌≤◌, ◌<◌, length, get_or};
ghost use Rattle.format.specs.Lists.{spread};
ghost use Rattle.format.specs.Trits.{tryte_count, tryte_table};
ghost use Rattle.trits.specs.Search.{front_of};

use crate::Ranks;

// Zeros + 8 · ones of the five trits of every tryte.
static TABLE: [u8; 243] = [
    5, 12, 4, 12, 19, 11, 4, 11, 3, 12, 19, 11, 19, 26, 18, 11, 18, 10, 4, 11, 3, 11, 18, 10, 3,
    10, 2, 12, 19, 11, 19, 26, 18, 11, 18, 10, 19, 26, 18, 26, 33, 25, 18, 25, 17, 11, 18, 10, 18,
    25, 17, 10, 17, 9, 4, 11, 3, 11, 18, 10, 3, 10, 2, 11, 18, 10, 18, 25, 17, 10, 17, 9, 3, 10, 2,
    10, 17, 9, 2, 9, 1, 12, 19, 11, 19, 26, 18, 11, 18, 10, 19, 26, 18, 26, 33, 25, 18, 25, 17, 11,
    18, 10, 18, 25, 17, 10, 17, 9, 19, 26, 18, 26, 33, 25, 18, 25, 17, 26, 33, 25, 33, 40, 32, 25,
    32, 24, 18, 25, 17, 25, 32, 24, 17, 24, 16, 11, 18, 10, 18, 25, 17, 10, 17, 9, 18, 25, 17, 25,
    32, 24, 17, 24, 16, 10, 17, 9, 17, 24, 16, 9, 16, 8, 4, 11, 3, 11, 18, 10, 3, 10, 2, 11, 18,
    10, 18, 25, 17, 10, 17, 9, 3, 10, 2, 10, 17, 9, 2, 9, 1, 11, 18, 10, 18, 25, 17, 10, 17, 9, 18,
    25, 17, 25, 32, 24, 17, 24, 16, 10, 17, 9, 17, 24, 16, 9, 16, 8, 3, 10, 2, 10, 17, 9, 2, 9, 1,
    10, 17, 9, 17, 24, 16, 9, 16, 8, 2, 9, 1, 9, 16, 8, 1, 8, 0,
];

// The powers of 3, and a little more than 65,536 divided by each.
static POWERS: [usize; 5] = [1, 3, 9, 27, 81];

static INVERSES: [usize; 5] = [65537, 21846, 7282, 2428, 810];

// 3 to the power `r`.
fn power(r: usize) -> usize
    requires { r < 5 }
    ensures { result ≡ 3 ^ r }
{
    POWERS[r]
}

// A little more than 65,536 / 3^r.
fn inverse(r: usize) -> usize
    requires { r < 5 }
    ensures { result ≡ 65536 / 3 ^ r + 1 }
{
    INVERSES[r]
}

// Tryte `x` without its first `r` trits. By a product: a division by a power that changes from call to call is slow.
fn tryte_rest(x: usize, r: usize) -> usize
    requires { (x < 256) × (r < 5) }
    ensures { result ≡ x / 3 ^ r }
{
    x * inverse(r) / 65536
}

// Trit `r` of tryte `x`.
pub fn digit(x: usize, r: usize) -> usize
    requires { (x < 256) × (r < 5) }
    ensures { result ≡ x / 3 ^ r % 3 }
{
    tryte_rest(x, r) % 3
}

// The first `r` trits of tryte `x`, with zeros in place of the others.
pub fn tryte_cut(x: usize, r: usize) -> usize
    requires { (x < 256) × (r < 5) }
    ensures { result ≡ x % 3 ^ r }
{
    let w = power(r);
    x - w * tryte_rest(x, r)
}

// Trit `p` of trytes, before they are known to be an image's.
pub fn trit(trytes: &[u8], p: usize) -> usize
    requires { p < 5 * length trytes.now }
    ensures { (result ≡ get_or (spread 3 5 trytes.now) p 0) × (result < 3) }
{
    digit(usize::from(trytes[p / 5]), p % 5)
}

// The zeros and ones of tryte `x`, by the table.
pub fn tryte_ranks(x: usize) -> Ranks
    requires { x < 243 }
    ensures { (result ≡ front_of x 5) × (result.zeros + result.ones ≤ 5) }
{
    let e = usize::from(TABLE[x]);
    Ranks {
        zeros: e % 8,
        ones: e / 8,
    }
}

// How often `t` stands in tryte `x`.
pub fn tryte_count(x: usize, t: usize) -> usize
    requires { (x < 243) × (t < 3) }
    ensures { (result ≡ tryte_count t x 5) × (result ≤ 5) }
{
    let all = tryte_ranks(x);
    match t {
        0 => all.zeros,
        1 => all.ones,
        _ => 5 - all.zeros - all.ones,
    }
}

// The zeros and ones of the first `r` trits of tryte `x`.
pub fn tryte_front(x: usize, r: usize) -> Ranks
    requires { (x < 243) × (r < 5) }
    ensures { result ≡ front_of x r }
{
    let cut = tryte_ranks(tryte_cut(x, r));
    Ranks {
        zeros: cut.zeros - (5 - r),
        ..cut
    }
}
