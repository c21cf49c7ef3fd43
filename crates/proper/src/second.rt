// Section 2 of an image: its entries against the trits.
ghost use Rattle.std.specs.Prelude.{◌≡◌, ◌+◌, ◌*◌, ◌≤◌, length};
ghost use Rattle.format.specs.Lists.{count_in};
ghost use Rattle.format.specs.Image.{from_bytes, read};
ghost use Rattle.format.specs.Proper.{shadows_seen};
ghost use Rattle.proper.specs.Held.{trits_in};
ghost use Rattle.proper.specs.SecondSays.{entry_right};

use crate::walk::Trits;
use little::get;
use trits::digits::trit;

// Whether trit `t` has a right entry: a 2 has entry `j`, a node among the `ones` before it; another trit has none.
fn entry_right(hs: &[u8], t: usize, j: usize, ones: usize) -> bool
    requires { t ≡ 2 → 2 * j + 2 ≤ length hs.now }
    ensures { result ≡ entry_right t ones (read 2 (2 * j) hs.now) }
{
    t != 2 || (1..=ones).contains(&get::<2>(hs, 2 * j))
}

// Section 2: each entry is at least 1 and at most the number of ones before its 2.
pub fn shadows_right(trits: &Trits, hs: &[u8]) -> bool
    requires { length hs.now ≡ 2 * count_in 2 (trits_in trits.now) }
    ensures { result ≡ shadows_seen (trits_in trits.now) (from_bytes 2 hs.now) }
{
    let mut ones = 0;
    let mut twos = 0;
    for p in 0..trits.count {
        let t = trit(trits.bytes, p);
        if !entry_right(hs, t, twos, ones) {
            return false;
        }
        ones += usize::from(t == 1);
        twos += usize::from(t == 2);
    }
    true
}
