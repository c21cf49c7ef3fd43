// What sections 2 to 5 and 9 of a proper image say.
ghost use Rattle.std.specs.Prelude.{◌≡◌, ◌+◌, ◌*◌, ◌/◌, ◌%◌, ◌^◌, ◌≤◌, ◌<◌, length, get_or};
ghost use Rattle.std.specs.Int.Count.{ones};
ghost use Rattle.format.specs.Image.{node_count, mark_words, mark_samples, marked_nodes, starts, grouped, read};
ghost use Rattle.format.specs.Proper.{trits_of, shadows_of};
ghost use Rattle.asking.specs.Bounds.{bounds};

use little::get;
use trits::image::Image;

// A node's group in section 5: from entry `first` up to entry `next`.
#[derive(Clone, Copy)]
pub struct Group {
    pub first: usize,
    pub next: usize,
}

// Entry `i` of a section, of N bytes each from byte `at` on.
fn entry<const N: usize>(image: &Image, at: usize, i: usize) -> usize
    requires width { N ≤ 8 }
    requires inside { at + N * i + N ≤ length image.now.bytes.now }
    ensures { (result ≡ read N (at + N * i) image.now.bytes.now) × (result < 256 ^ N) }
{
    get::<N>(image.bytes, at + N * i)
}

// Entry `i` of section 2.
pub fn shadow(image: &Image, i: usize) -> usize
    requires { i < length (shadows_of image.now.bytes.now) }
    ensures { result ≡ get_or (shadows_of image.now.bytes.now) i 0 }
{
    entry::<2>(image, image.lay.at2, i)
}

// Word `q` of section 3.
fn word(image: &Image, q: usize) -> u64
    requires { 64 * q < node_count (trits_of image.now.bytes.now) }
    ensures { result ≡ get_or (mark_words (trits_of image.now.bytes.now) (shadows_of image.now.bytes.now)) q 0 }
{
    entry::<8>(image, image.lay.at3, q) as u64
}

// Entry `j` of section 4.
fn start(image: &Image, j: usize) -> usize
    requires { j ≤ length (marked_nodes (trits_of image.now.bytes.now) (shadows_of image.now.bytes.now)) }
    ensures { result ≡ get_or (starts (trits_of image.now.bytes.now) (shadows_of image.now.bytes.now)) j 0 }
{
    entry::<4>(image, image.lay.at4, j)
}

// Entry `j` of section 5: the place of a 2.
pub fn shadow_place(image: &Image, j: usize) -> usize
    requires { j < length (shadows_of image.now.bytes.now) }
    ensures { result ≡ get_or (grouped (trits_of image.now.bytes.now) (shadows_of image.now.bytes.now) (node_count (trits_of image.now.bytes.now))) j 0 }
{
    entry::<4>(image, image.lay.at5, j)
}

// Entry `q` of section 9: the marks before word `q`.
fn sample(image: &Image, q: usize) -> usize
    requires { 64 * q < node_count (trits_of image.now.bytes.now) }
    ensures { (result ≡ get_or (mark_samples (trits_of image.now.bytes.now) (shadows_of image.now.bytes.now)) q 0) × (result < 65536) }
{
    entry::<2>(image, image.lay.at9, q)
}

// The ones of a mark word below bit `i`.
fn ones_below(w: u64, i: usize) -> usize
    requires { i < 64 }
    ensures { (result ≡ ones (w % 2 ^ i)) × (result < 4294967296) }
{
    u64::count_ones(w % (1u64 << i)) as usize
}

// The group of node `i + 1`. The sample and the ones below its bit are the marks before it; a node without a mark has an empty group.
pub fn find_group(image: &Image, i: usize) -> Group
    requires { i < node_count (trits_of image.now.bytes.now) }
    ensures { result ≡ bounds (trits_of image.now.bytes.now) (shadows_of image.now.bytes.now) i }
{
    let q = i / 64;
    let r = i % 64;
    let w = word(image, q);
    let before = sample(image, q) + ones_below(w, r);
    let after = before + marks::mark_in(w, r) as usize;
    let first = start(image, before);
    let next = start(image, after);
    Group { first, next }
}
