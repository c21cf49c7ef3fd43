// Sections 3 and 9: the marks, and how many stand before each word. Here and in `started` section 2 alone is known, which many trits fit, so the
// contracts speak of all that do; the type `Walk` would ask callers for section 1 too.
ghost use Rattle.std.specs.Prelude.{◌≡◌, List, [], ℕ, ◌+◌, ◌*◌, ◌≤◌, ◌<◌, length, get_or};
ghost use Rattle.std.specs.Int.Count.{ones};
ghost use Rattle.format.specs.Lists.{same, up};
ghost use Rattle.format.specs.Image.{bytes, node_count, mark_words, marked_nodes, mark_samples, read};
ghost use Rattle.format.specs.Proper.{ProperTrits};
ghost use Rattle.proper.specs.Known.{Shadowed, Marked};
ghost use Rattle.proper.specs.Marking.{MarkMap};

use little::get;
use marks::{MARK_WORDS, with_mark};

// Entry i of H.
pub fn shadow(hs: &[u8], i: usize) -> usize
    requires { (trits : List ℕ) × (H : List ℕ) × Shadowed trits H hs.now × (i < length H) }
    ensures { (1 ≤ result) × (result ≤ 30000) × ((trits H : List ℕ) → Shadowed trits H hs.now → result ≡ get_or H i 0) }
{
    get::<2>(hs, 2 * i)
}

// Sets the marks of the nodes that occur in H, in an empty map.
fn set_marks(hs: &[u8], map: &mut [u64])
    requires { MarkMap [] map.old × ((trits : List ℕ) × (H : List ℕ) × Shadowed trits H hs.now) }
    ensures { (trits H : List ℕ) → Shadowed trits H hs.now → MarkMap H map.new }
{
    for i in 0..hs.len() / 2 {
        let v = shadow(hs, i) - 1;
        let w = v / 64;
        map[w] = with_mark(map[w], v % 64);
    }
}

// The contents of section 3 are the words of the map.
fn words_right(map: &[u64], part: &[u8], n: usize) -> bool
    requires { (trits : List ℕ) × (H : List ℕ) × ProperTrits trits H × MarkMap H map.now × (node_count trits ≡ n) × (length part.now ≡ 8 * up n 64) }
    ensures { (trits H : List ℕ) → ProperTrits trits H → MarkMap H map.now → node_count trits ≡ n
        → result ≡ same part.now (bytes 8 (mark_words trits H)) }
{
    for w in 0..n.div_ceil(64) {
        if get::<8>(part, 8 * w) as u64 != map[w] {
            return false;
        }
    }
    true
}

// Section 3: a node is marked if it occurs in H.
pub fn marks_right(hs: &[u8], part: &[u8], n: usize) -> bool
    requires { (trits : List ℕ) × (H : List ℕ) × Shadowed trits H hs.now × (node_count trits ≡ n) × (length part.now ≡ 8 * up n 64) }
    ensures { (trits H : List ℕ) → Shadowed trits H hs.now → node_count trits ≡ n → result ≡ same part.now (bytes 8 (mark_words trits H)) }
{
    let mut map = [0u64; MARK_WORDS];
    set_marks(hs, &mut map);
    words_right(&map, part, n)
}

// The marks in word `w`.
fn marks_in(marks: &[u8], w: usize) -> usize
    requires { 8 * w + 8 ≤ length marks.now }
    ensures { result ≡ ones (read 8 (8 * w) marks.now) }
{
    let word = get::<8>(marks, 8 * w) as u64;
    word.count_ones() as usize
}

// How many nodes are marked: the ones of section 3.
pub fn count_marks(marks: &[u8]) -> usize
    requires { (trits : List ℕ) × (H : List ℕ) × Marked trits H marks.now }
    ensures { (trits H : List ℕ) → Marked trits H marks.now → result ≡ length (marked_nodes trits H) }
{
    let mut count = 0;
    for w in 0..marks.len() / 8 {
        count += marks_in(marks, w);
    }
    count
}

// Section 9: the marks before each word.
pub fn mark_samples_right(marks: &[u8], part: &[u8]) -> bool
    requires { (trits : List ℕ) × (H : List ℕ) × Marked trits H marks.now × (length part.now ≡ 2 * up (node_count trits) 64) }
    ensures { (trits H : List ℕ) → Marked trits H marks.now → result ≡ same part.now (bytes 2 (mark_samples trits H)) }
{
    let mut sum = 0;
    for w in 0..marks.len() / 8 {
        if get::<2>(part, 2 * w) != sum {
            return false;
        }
        sum += marks_in(marks, w);
    }
    true
}
