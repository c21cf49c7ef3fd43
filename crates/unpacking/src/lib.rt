// The unpacker: an image's table, in level order, into a lent table. One pass over the trits from the first zero on; each has one word of the
// table, and after them come the roots.
#![tactic(auto)]

ghost use Rattle.std.specs.Prelude.{◌≡◌, ◌+◌, ◌-◌, ◌≤◌, ◌<◌, length};
ghost use Rattle.format.specs.Lists.{one_to, over};
ghost use Rattle.format.specs.Proper.{trits_of, shadows_of};
ghost use Rattle.format.specs.Unpack.{unpack_outcome, unpack_leaves};
ghost use Rattle.little.specs.Put.{put_at};
ghost use Rattle.unpacking.specs.Standing.{Standing, table_of, stand_at, trit_put, over_first};

use format::Refusal;
use little::get;
use trits::image::Image;

// The ones and the twos before a place, and the place of the last zero, whose word awaits the count of its operands.
#[derive(Clone, Copy)]
struct Stand {
    ones: usize,
    twos: usize,
    zero: usize,
}

// Puts what the trit at place `p` says: a zero, the count of the operands since the last zero; another, its operand.
fn put_trit(image: &Image, table: &mut [u16], p: usize, s: Stand) -> Stand
    requires { Standing image.now.bytes.now image.now.lay p s × (image.now.lay.trits < length table.old) }
    ensures { (result ≡ stand_at (trits_of image.now.bytes.now) (p + 1))
        × (table.new ≡ trit_put (trits_of image.now.bytes.now) (shadows_of image.now.bytes.now) p table.old) }
{
    let roots = image.lay.roots;
    match image.trit(p) {
        0 => {
            let count = p - s.zero - 1;
            table[s.zero - roots + 1] = count as u16;
            Stand { zero: p, ..s }
        }
        1 => {
            let next = s.ones + 1;
            table[p - roots + 1] = next as u16;
            Stand { ones: next, ..s }
        }
        _ => {
            let shadow = get::<2>(image.bytes, image.lay.at2 + 2 * s.twos);
            table[p - roots + 1] = shadow as u16;
            Stand {
                twos: s.twos + 1,
                ..s
            }
        }
    }
}

// Puts the table up to its roots: n, the operands of each node after their count, and the count of the roots.
fn put_rows(image: &Image, table: &mut [u16])
    requires { image.now.lay.trits < length table.old }
    ensures { table.new ≡ over_first (image.now.lay.trits - image.now.lay.roots + 1) (table_of image.now.bytes.now) table.old }
{
    let end = image.lay.trits;
    let roots = image.lay.roots;
    table[0] = image.lay.nodes as u16;
    let mut s = Stand {
        ones: roots,
        twos: 0,
        zero: roots,
    };
    for p in roots + 1..end {
        s = put_trit(image, table, p, s);
    }
    table[end - roots] = roots as u16;
}

// Puts the roots, from 1 on, one in each word.
fn put_roots(table: &mut [u16])
    requires { length table.old < 65536 }
    ensures { table.new ≡ one_to (length table.old) }
{
    for (i, word) in table.iter_mut().enumerate() {
        *word = (i + 1) as u16;
    }
}

// Puts the whole table.
fn put_table(image: &Image, table: &mut [u16])
    requires { image.now.lay.trits < length table.old }
    ensures { table.new ≡ over (table_of image.now.bytes.now) table.old }
{
    let roots = image.lay.roots;
    put_rows(image, table);
    let at = image.lay.trits - roots + 1;
    put_roots(&mut table[at..at + roots]);
}

// Unpacks an image into a lent table, in level order.
pub fn unpack(image: &[u8], table: &mut [u16]) -> Result<usize, Refusal>
    ensures { unpack_outcome image.now table.old ≡ unpack_leaves result table.new }
{
    let image = proper::check::examine(image)?;
    let trits = image.lay.trits;
    if table.len() <= trits {
        return Err(Refusal::TableTooShort);
    }
    put_table(&image, table);
    Ok(trits + 1)
}
