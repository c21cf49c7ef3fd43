// The checker: the sections in their order, up to the first fault. Where section 2 or 3 alone is known, which many trits fit, a contract speaks of all
// that do.
ghost use Rattle.std.specs.Prelude.{◌≡◌, List, ◌∷◌, ℕ, ◌+◌, ◌*◌, ◌≤◌, ◌<◌, MatchResult, length};
ghost use Rattle.format.specs.Faults.{fault, ◌then◌};
ghost use Rattle.format.specs.Lists.{same};
ghost use Rattle.format.specs.Trits.{untrytes};
ghost use Rattle.format.specs.Image.{Section, bytes, node_count, marked_nodes, starts, given};
ghost use Rattle.format.specs.Proper.{count_of, check_given, check_image};
ghost use Rattle.format.specs.Answers.{refusal_number, checked_number};
ghost use Rattle.format.specs.declared.Refusal.TheVariants.{ImageEnds};
ghost use Rattle.trits.specs.Layout.{laying};
ghost use Rattle.proper.specs.Held.{trits_in, shadows_in};
ghost use Rattle.proper.specs.Known.{Shadowed, Marked};
ghost use Rattle.samples.specs.Samples.{Sampling, sample_section};
ghost use Rattle.proper.specs.Examined.{Examined, Examines, opens, Cut, Opened, SectionPasses, FirstPassed, Sized, Counted, given_from, check2, shadows2};

use crate::first::{Sizes, section1};
use crate::marked::{count_marks, mark_samples_right, marks_right};
use crate::ordered::both_right;
use crate::sampled::samples_right;
use crate::second::shadows_right;
use crate::started::starts_right;
use crate::walk::{Trits, Walk};
use format::{MAX_TRITS, Refusal};
use little::get;
use trits::image::Image;
use trits::{Layout, Plan};

// The count at the front of a section (21 where it is missing).
fn count(rest: &[u8]) -> Result<usize, Refusal>
    ensures { MatchResult result (λ n. (4 ≤ length rest.now) × (n ≡ count_of rest.now)) (λ f. (f ≡ ImageEnds) × (length rest.now < 4)) }
{
    if rest.len() < 4 {
        return Err(Refusal::ImageEnds);
    }
    Ok(get::<4>(rest, 0))
}

// The contents behind a section's count, and what follows them (21 where they are missing).
fn contents(rest: &[u8], size: usize) -> Result<(&[u8], &[u8]), Refusal>
    requires { 4 ≤ length rest.now }
    ensures { MatchResult result (λ p. Cut size rest.now p.0.now p.1.now) (λ f. (f ≡ ImageEnds) × (length rest.now < 4 + size)) }
{
    if rest.len() - 4 < size {
        return Err(Refusal::ImageEnds);
    }
    Ok(rest[4..].split_at(size))
}

// The contents of a section of so many entries, and what follows them. A wrong count is refused with `code`.
fn section<'a>(
    rest: &'a [u8],
    code: Refusal,
    entries: usize,
    size: usize,
) -> Result<(&'a [u8], &'a [u8]), Refusal>
    ensures { MatchResult result (λ p. Opened (refusal_number code) entries size rest.now p.0.now p.1.now)
        (λ f. refusal_number f ≡ opens (refusal_number code) entries size rest.now) }
{
    let found = count(rest)?;
    if found != entries {
        return Err(code);
    }
    contents(rest, size)
}

// Section 9, and that nothing follows (26).
fn from9(marks: &[u8], rest: &[u8], lay: Layout) -> Result<(), Refusal>
    requires { (trits : List ℕ) × (H : List ℕ) × Marked trits H marks.now × (lay.nodes ≡ node_count trits) }
    ensures { (trits H : List ℕ) → Marked trits H marks.now → lay.nodes ≡ node_count trits
        → checked_number result ≡ check_given (given_from 6 trits H) rest.now }
{
    let words = lay.nodes.div_ceil(64);
    let (part, end) = section(rest, Refusal::IndexWrong, words, 2 * words)?;
    if !mark_samples_right(marks, part) {
        return Err(Refusal::IndexWrong);
    }
    if !end.is_empty() {
        return Err(Refusal::BytesAfterImage);
    }
    Ok(())
}

// Section 6, 7 or 8, and what follows it.
fn sample_section<'a>(trits: &Trits, rest: &'a [u8], plan: Plan) -> Result<&'a [u8], Refusal>
    requires { (i : ℕ) × Sampling i plan.step plan.fan plan.width }
    ensures { MatchResult result (λ r. SectionPasses (sample_section plan.step plan.fan plan.width (trits_in trits.now)) rest.now r.now)
        (λ f. (ss : List Section) → refusal_number f ≡ check_given (sample_section plan.step plan.fan plan.width (trits_in trits.now) ∷ ss) rest.now) }
{
    let entries = trits.count / plan.step + 1;
    let (part, end) = section(
        rest,
        Refusal::IndexWrong,
        entries,
        plan.width * (2 * entries),
    )?;
    if !samples_right(trits, part, plan) {
        return Err(Refusal::IndexWrong);
    }
    Ok(end)
}

// Sections 6 to 9.
fn from6(trits: &Trits, marks: &[u8], rest: &[u8], lay: Layout) -> Result<(), Refusal>
    requires { (H : List ℕ) × Counted (trits_in trits.now) H marks.now lay }
    ensures { (H : List ℕ) → Counted (trits_in trits.now) H marks.now lay → checked_number result ≡ check_given (given_from 3 (trits_in trits.now) H) rest.now }
{
    let after6 = sample_section(trits, rest, Plan::FAR)?;
    let after7 = sample_section(trits, after6, Plan::MIDDLE)?;
    let after8 = sample_section(trits, after7, Plan::NEAR)?;
    from9(marks, after8, lay)
}

// The first fault where section 5's front has fault `f`: section 4's contents (25) come before it.
fn before5(hs: &[u8], firsts: &[u8], n: usize, f: Refusal) -> Refusal
    requires { (trits : List ℕ) × (H : List ℕ) × Shadowed trits H hs.now × (node_count trits ≡ n)
        × (length firsts.now ≡ 4 * (length (marked_nodes trits H) + 1)) }
    ensures { (trits H : List ℕ) → Shadowed trits H hs.now → node_count trits ≡ n
        → refusal_number result ≡ (fault 25 (same firsts.now (bytes 4 (starts trits H))) then refusal_number f) }
{
    let right = starts_right(hs, firsts, n);
    if right { f } else { Refusal::IndexWrong }
}

// Sections 4 to 9. Sections 4 and 5 are compared together: where section 5 is as long as it should be, their faults are one.
fn from4(walk: &Walk, marks: &[u8], rest: &[u8], lay: Layout) -> Result<(), Refusal>
    requires { Counted (trits_in walk.now.trits) (shadows_in walk.now) marks.now lay }
    ensures { checked_number result ≡ check_given (given_from 1 (trits_in walk.now.trits) (shadows_in walk.now)) rest.now }
{
    let entries = lay.marked + 1;
    let (firsts, after4) = section(rest, Refusal::IndexWrong, entries, 4 * entries)?;
    match section(after4, Refusal::IndexWrong, lay.shadows, 4 * lay.shadows) {
        Err(f) => Err(before5(walk.shadows, firsts, lay.nodes, f)),
        Ok((part, after5)) => {
            if !both_right(walk, firsts, part, lay.nodes) {
                return Err(Refusal::IndexWrong);
            }
            from6(&walk.trits, marks, after5, lay)
        }
    }
}

// Sections 3 to 9, where section 1 gave the sizes.
fn from3(walk: &Walk, rest: &[u8], sizes: Sizes) -> Result<Layout, Refusal>
    requires { Sized (trits_in walk.now.trits) walk.now.trits.count sizes.nodes sizes.roots sizes.shadows }
    ensures { Examines (check_given (given (trits_in walk.now.trits) (shadows_in walk.now)) rest.now) (laying (trits_in walk.now.trits) (shadows_in walk.now)) result }
{
    let n = sizes.nodes;
    let (marks, after3) = section(rest, Refusal::IndexWrong, n, 8 * n.div_ceil(64))?;
    if !marks_right(walk.shadows, marks, n) {
        return Err(Refusal::IndexWrong);
    }
    let h = count_marks(marks);
    let lay = trits::lay_out(walk.trits.count, n, sizes.roots, sizes.shadows, h);
    from4(walk, marks, after3, lay)?;
    Ok(lay)
}

// Sections 2 to 9.
fn from2<'a>(bs: &'a [u8], rest: &'a [u8], l: usize, sizes: Sizes) -> Result<Layout, Refusal>
    requires { FirstPassed bs.now l sizes.nodes sizes.roots sizes.shadows }
    ensures { Examines (check2 (untrytes l bs.now) rest.now)
        (laying (untrytes l bs.now) (shadows2 (untrytes l bs.now) rest.now)) result }
{
    let k = sizes.shadows;
    let (hs, after2) = section(rest, Refusal::ShadowsWrong, k, 2 * k)?;
    let trits = Trits {
        bytes: bs,
        count: l,
    };
    if !shadows_right(&trits, hs) {
        return Err(Refusal::ShadowsWrong);
    }
    let walk = Walk { trits, shadows: hs };
    from3(&walk, after2, sizes)
}

// The image in these bytes if it is proper, or its first fault.
pub fn examine<'a>(bytes: &'a [u8]) -> Result<Image<'a>, Refusal>
    ensures { Examined bytes.entry result }
{
    let l = count(bytes)?;
    if l > MAX_TRITS {
        return Err(Refusal::ImageTooLarge);
    }
    if l == 0 {
        return Err(Refusal::TritsWrong);
    }
    let (bs, rest) = contents(bytes, l.div_ceil(5))?;
    let sizes = section1(bs, l)?;
    let lay = from2(bs, rest, l, sizes)?;
    Ok(Image::of(bytes, lay))
}

// Whether an image is proper, or its first fault.
pub fn check(image: &[u8]) -> Result<(), Refusal>
    ensures { checked_number result ≡ check_image image.now }
{
    examine(image)?;
    Ok(())
}
