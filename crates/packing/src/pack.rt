// Packing a table: refusals 1 to 9, or the order list and the image.
ghost use Rattle.std.specs.Prelude.{◌≡◌};
ghost use Rattle.format.specs.Packing.{pack_outcome, pack_leaves};
ghost use Rattle.packing.specs.Packed.{Lent, Ordered, Uncleared};

use crate::image::put_image;
use crate::table::{Sizes, scan};
use crate::walk::{clear, count_marked, order_nodes, put_order};
use format::Refusal;

// An image buffer too short, or the order list and the image; the walk is in the work, which is not cleared here.
fn put_all(
    table: &[u16],
    order: &mut [u16],
    work: &mut [u32],
    image: &mut [u8],
    s: Sizes,
) -> Result<usize, Refusal>
    requires { Ordered table.now order.old work.old s }
    ensures { Uncleared table.now s.nodes order.old work.old image.old result
        order.new work.new image.new }
{
    let n = s.nodes;
    let uses = s.edges + s.roots;
    let marked = count_marked(work, n);
    let lay = trits::lay_out(n + uses + 1, n, s.roots, uses - n, marked);
    let size = lay.at9 + 2 * n.div_ceil(64);
    let fits = size <= image.len();
    if !fits {
        return Err(Refusal::ImageTooShort);
    }
    put_order(work, n, order);
    put_image(table, work, image, lay);
    Ok(size)
}

// A node that no root reaches, or what `put_all` answers; the work is cleared.
fn pack_nodes(
    table: &[u16],
    order: &mut [u16],
    work: &mut [u32],
    image: &mut [u8],
    s: Sizes,
) -> Result<usize, Refusal>
    requires { Lent table.now order.old work.old s }
    ensures { pack_outcome table.now order.old work.old image.old
        ≡ pack_leaves result order.new work.new image.new }
{
    let n = s.nodes;
    let tail = order_nodes(table, work, n);
    if tail < n {
        clear(work, n);
        return Err(Refusal::NodeUnreached);
    }
    let r = put_all(table, order, work, image, s);
    clear(work, n);
    r
}

// Packs a table into lent buffers.
pub fn pack(
    table: &[u16],
    order: &mut [u16],
    work: &mut [u32],
    image: &mut [u8],
) -> Result<usize, Refusal>
    ensures { pack_outcome table.now order.old work.old image.old
        ≡ pack_leaves result order.new work.new image.new }
{
    let s = scan(table)?;
    if work.len() < 3 * s.nodes || order.len() < s.nodes {
        return Err(Refusal::WorkTooShort);
    }
    pack_nodes(table, order, work, image, s)
}
