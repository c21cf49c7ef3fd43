// The image of a walked table: nine sections, each after its count, one behind the other. The writers of sections 3 to 9 know trits and shadows by
// what stands in the image alone, so their contracts speak of all that fit.
ghost use Rattle.std.specs.Prelude.{◌≡◌, List, [], ◌∷◌, ℕ, ◌-◌, ◌≤◌};
ghost use Rattle.format.specs.Lists.{over};
ghost use Rattle.format.specs.Level.{walk};
ghost use Rattle.format.specs.Image.{section3, section4, section5, section6, section7, section8, section9, written};
ghost use Rattle.format.specs.Packing.{image_of};
ghost use Rattle.little.specs.Put.{put_at};
ghost use Rattle.marks.specs.Uses.{Uses};
ghost use Rattle.samples.specs.Places.{group_ends};
ghost use Rattle.samples.specs.Samples.{sample_section, Plan};
ghost use Rattle.packing.specs.Work.{graph_of, start_of};
ghost use Rattle.packing.specs.Packed.{Planned, LaidOut, Started, front};

use crate::sections::{put_shadows, put_trytes};
use crate::stream::Stream;
use crate::walk::uses_by_level;
use little::put;
use trits::Layout;

// Sections 1 and 2, from the stream of trits.
fn put_walk(stream: &Stream, image: &mut [u8], lay: Layout)
    requires { LaidOut (walk (graph_of stream.now.table.now)).trits (walk (graph_of stream.now.table.now)).shadows lay image.old
        × (lay.roots ≤ lay.trits) × (lay.trits - lay.roots ≡ start_of (graph_of stream.now.table.now) stream.now.n) }
    ensures { image.new ≡ put_at image.old 0 (front (walk (graph_of stream.now.table.now)).trits (walk (graph_of stream.now.table.now)).shadows) }
{
    let roots = lay.trits - lay.roots;
    put::<4>(image, lay.at1 - 4, lay.trits);
    put_trytes(stream, roots, &mut image[lay.at1..lay.at2 - 4]);
    put::<4>(image, lay.at2 - 4, lay.shadows);
    put_shadows(stream, roots, &mut image[lay.at2..lay.at3 - 4]);
}

// Sections 3, 4 and 9, from the shadow uses of each level number.
fn put_marks(uses: &[u32], image: &mut [u8], lay: Layout)
    requires { (trits : List ℕ) × (H : List ℕ) × LaidOut trits H lay image.old × Uses trits H uses.now }
    ensures { (trits H : List ℕ) → LaidOut trits H lay image.old → Uses trits H uses.now
        → image.new ≡ put_at (put_at image.old (lay.at3 - 4) (written (section3 trits H ∷ section4 trits H ∷ []))) (lay.at9 - 4) (written (section9 trits H ∷ [])) }
{
    let words = lay.nodes.div_ceil(64);
    put::<4>(image, lay.at3 - 4, lay.nodes);
    marks::put_marks(uses, &mut image[lay.at3..lay.at4 - 4]);
    put::<4>(image, lay.at4 - 4, lay.marked + 1);
    marks::put_starts(uses, &mut image[lay.at4..lay.at5 - 4]);
    put::<4>(image, lay.at9 - 4, words);
    marks::put_mark_samples(uses, &mut image[lay.at9..lay.at9 + 2 * words]);
}

// Section 5, from sections 1 and 2 and the shadow uses, which become each node's next slot.
fn put_places(uses: &mut [u32], image: &mut [u8], lay: Layout)
    requires { (trits : List ℕ) × (H : List ℕ) × Started trits H lay image.old × Uses trits H uses.old }
    ensures { (trits H : List ℕ) → Started trits H lay image.old → Uses trits H uses.old
        → (image.new ≡ put_at image.old (lay.at5 - 4) (written (section5 trits H ∷ []))) × (uses.new ≡ group_ends trits H) }
{
    marks::first_indices(uses);
    put::<4>(image, lay.at5 - 4, lay.shadows);
    samples::put_places(image, lay.at1, lay.at2 - 4, lay.at2, uses, lay.at5);
}

// Section 6, 7 or 8, from section 1: its contents start at `at`.
fn put_sample_section(image: &mut [u8], lay: Layout, plan: trits::Plan, at: usize)
    requires { (trits : List ℕ) × (H : List ℕ) × Started trits H lay image.old × Plan plan.step plan.fan plan.width lay.trits at image.old × (lay.at3 ≤ at) }
    ensures { (trits H : List ℕ) → Started trits H lay image.old
        → (image.new ≡ put_at image.old (at - 4) (written (sample_section plan.step plan.fan plan.width trits ∷ [])))
        × Started trits H lay image.new }
{
    put::<4>(image, at - 4, lay.trits / plan.step + 1);
    samples::put_samples(image, lay.at1, lay.at2 - 4, lay.trits, plan, at);
}

// Sections 6, 7 and 8.
fn put_samples(image: &mut [u8], lay: Layout)
    requires { (trits : List ℕ) × (H : List ℕ) × Started trits H lay image.old }
    ensures { (trits H : List ℕ) → Started trits H lay image.old
        → image.new ≡ put_at image.old (lay.at6 - 4) (written (section6 trits H ∷ section7 trits H ∷ section8 trits H ∷ [])) }
{
    put_sample_section(image, lay, trits::Plan::FAR, lay.at6);
    put_sample_section(image, lay, trits::Plan::MIDDLE, lay.at7);
    put_sample_section(image, lay, trits::Plan::NEAR, lay.at8);
}

// The whole image; the work's first n words are left as section 5's writer leaves them.
pub fn put_image(table: &[u16], work: &mut [u32], image: &mut [u8], lay: Layout)
    requires { Planned table.now work.old lay image.old }
    ensures { (image.new ≡ over (image_of (graph_of table.now)) image.old)
        × (work.new ≡ over (group_ends (walk (graph_of table.now)).trits (walk (graph_of table.now)).shadows) work.old) }
{
    let n = lay.nodes;
    put_walk(&Stream { table, work, n }, image, lay);
    uses_by_level(work, n);
    put_marks(&work[..n], image, lay);
    put_samples(image, lay);
    put_places(&mut work[..n], image, lay);
}
