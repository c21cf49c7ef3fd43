// The contents of sections 1 and 2, each written into its own part of the image.
ghost use Rattle.std.specs.Prelude.{◌≡◌, ◌*◌, length};
ghost use Rattle.format.specs.Lists.{up};
ghost use Rattle.format.specs.Level.{walk};
ghost use Rattle.format.specs.Trits.{trytes};
ghost use Rattle.format.specs.Image.{bytes};
ghost use Rattle.packing.specs.Work.{graph_of, start_of};

use crate::stream::{Stream, Trit};
use little::put;

// Section 1: the trytes. `at` is the place of the count of roots.
pub fn put_trytes(stream: &Stream, at: usize, out: &mut [u8])
    requires { (at ≡ start_of (graph_of stream.now.table.now) stream.now.n)
        × (length out.old ≡ up (length (walk (graph_of stream.now.table.now)).trits) 5) }
    ensures { out.new ≡ trytes (walk (graph_of stream.now.table.now)).trits }
{
    let mut c = stream.first(at);
    for byte in out {
        *byte = stream.next_tryte(&mut c) as u8;
    }
}

// Section 2: the shadows, 2 bytes each.
pub fn put_shadows(stream: &Stream, at: usize, out: &mut [u8])
    requires { (at ≡ start_of (graph_of stream.now.table.now) stream.now.n)
        × (length out.old ≡ 2 * length (walk (graph_of stream.now.table.now)).shadows) }
    ensures { out.new ≡ bytes 2 (walk (graph_of stream.now.table.now)).shadows }
{
    let mut c = stream.first(at);
    let mut p = 0;
    while let Some(trit) = stream.step(&mut c) {
        if let Trit::Shadow(h) = trit {
            put::<2>(out, p, h);
            p += 2;
        }
    }
}
