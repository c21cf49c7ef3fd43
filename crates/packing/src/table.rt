// Reading a table, front to back: refusals 1 to 6.
ghost use Rattle.std.specs.Prelude.{◌≡◌, List, [], ℕ, ◌≤◌, ◌<◌, length, get_or, drop, MatchResult};
ghost use Rattle.format.specs.Table.{read_operands, read_nodes, read_roots, read_table};
ghost use Rattle.format.specs.declared.Refusal.TheVariants.{TableEnds};
ghost use Rattle.packing.specs.Sizes.{place_of, step_of, sizes, sizes_of, Lists};

use format::{MAX_EDGES, MAX_NODES, Refusal};
use marks::{MARK_WORDS, mark_in, with_mark};

// The sizes of a table: n, m and c.
#[derive(Clone, Copy)]
pub struct Sizes {
    pub nodes: usize,
    pub edges: usize,
    pub roots: usize,
}

// A word that is called for, which the table may end before.
fn called(table: &[u16], at: usize) -> Result<usize, Refusal>
    ensures { MatchResult result (λ v. (v ≡ get_or table.now at 0) × (v ≤ 65535) × (at < length table.now))
        (λ f. (f ≡ TableEnds) × (length table.now ≤ at)) }
{
    match table.get(at) {
        Some(&v) => Ok(usize::from(v)),
        None => Err(Refusal::TableEnds),
    }
}

// Reads k operands from `at` on.
fn operands(table: &[u16], n: usize, at: usize, k: usize) -> Result<usize, Refusal>
    requires { at ≤ length table.now }
    ensures { place_of result ≡ step_of table.now (read_operands n k (drop at table.now)) }
{
    for i in 0..k {
        let v = called(table, at + i)?;
        if !(1..=n).contains(&v) {
            return Err(Refusal::OperandOutside);
        }
    }
    Ok(at + k)
}

// Reads the operand lists of n nodes, from place 1 on.
fn lists(table: &[u16], n: usize) -> Result<usize, Refusal>
    requires { 1 ≤ length table.now }
    ensures { place_of result ≡ step_of table.now (read_nodes n n 0 (drop 1 table.now)) }
{
    let mut at = 1;
    let mut m = 0;
    for _ in 0..n {
        let k = called(table, at)?;
        m += k;
        let too_many = MAX_EDGES < m;
        if too_many {
            return Err(Refusal::TableTooLarge);
        }
        at = operands(table, n, at + 1, k)?;
    }
    Ok(at)
}

// Reads c roots from `at` on, none of them twice.
fn roots(table: &[u16], n: usize, at: usize, c: usize) -> Result<usize, Refusal>
    requires { (at ≤ length table.now) × (n ≤ 30000) }
    ensures { place_of result ≡ step_of table.now (read_roots n c [] (drop at table.now)) }
{
    let mut seen = [0u64; MARK_WORDS];
    for i in 0..c {
        let v = called(table, at + i)?;
        if !(1..=n).contains(&v) {
            return Err(Refusal::RootOutside);
        }
        let w = v / 64;
        let b = v % 64;
        let marks = seen[w];
        if mark_in(marks, b) != 0 {
            return Err(Refusal::RootTwice);
        }
        seen[w] = with_mark(marks, b);
    }
    Ok(at + c)
}

// The count of roots and the roots, after n operand lists that end before `at`; nothing may follow.
fn ending(table: &[u16], n: usize, at: usize) -> Result<Sizes, Refusal>
    requires { (n < at) × (at ≤ length table.now) × (n ≤ 30000) × ((os : List (List ℕ)) × Lists n at os table.now) }
    ensures { (os : List (List ℕ)) → Lists n at os table.now → sizes result ≡ sizes_of (read_table table.now) }
{
    let c = called(table, at)?;
    let end = roots(table, n, at + 1, c)?;
    if end < table.len() {
        return Err(Refusal::WordsAfterRoots);
    }
    Ok(Sizes {
        nodes: n,
        edges: at - n - 1,
        roots: end - at - 1,
    })
}

// The sizes of a table, or its first fault.
pub fn scan(table: &[u16]) -> Result<Sizes, Refusal>
    ensures { sizes result ≡ sizes_of (read_table table.now) }
{
    let n = called(table, 0)?;
    if MAX_NODES < n {
        return Err(Refusal::TableTooLarge);
    }
    let at = lists(table, n)?;
    ending(table, n, at)
}
