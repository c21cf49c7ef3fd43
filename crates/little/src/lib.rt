// Numbers of N bytes in a lent slice of bytes, low byte first.
#![tactic(auto)]

ghost use Rattle.std.specs.Prelude.{◌≡◌, ◌+◌, ◌^◌, ◌≤◌, ◌<◌, length};
ghost use Rattle.format.specs.Image.{le_bytes, read};
ghost use Rattle.little.specs.Put.{put_at};

// The number in the N bytes from `at` on: an index has at most 8.
pub fn get<const N: usize>(s: &[u8], at: usize) -> usize
    requires width { N ≤ 8 }
    requires inside { at + N ≤ length s.now }
    ensures { (result ≡ read N at s.now) × (result < 256 ^ N) }
{
    let mut n = 0;
    for byte in s[at..at + N].iter().rev() {
        n = 256 * n + usize::from(*byte);
    }
    n
}

// Puts the lowest N bytes of `n` at `at`; every other byte stays as it was.
pub fn put<const N: usize>(s: &mut [u8], at: usize, n: usize)
    requires { at + N ≤ length s.old }
    ensures { s.new ≡ put_at s.old at (le_bytes N n) }
{
    let mut rest = n;
    for byte in &mut s[at..at + N] {
        *byte = (rest % 256) as u8;
        rest /= 256;
    }
}
