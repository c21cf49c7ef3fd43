// The trits of a table, one at a time, out of the work buffer that the walk has filled.
ghost use Rattle.std.specs.Prelude.{◌≡◌, ◌≤◌, ◌<◌, Some, IfSome};
ghost use Rattle.format.specs.Level.{Walk, walk};
ghost use Rattle.packing.specs.Work.{graph_of, start_of};
ghost use Rattle.packing.specs.Walked.{Walked, walked_props};

// i rows are ended; `left` operands of the row are left, from `at` on in the table; `ones` ones are written.
#[derive(Clone, Copy)]
pub struct Cursor {
    pub i: usize,
    pub at: usize,
    pub left: usize,
    pub ones: usize,
}

// A trit: 0 at a row's end, 1 for a real operand, 2 for a shadow, with its level number.
#[derive(Clone, Copy)]
pub enum Trit {
    End,
    Real,
    Shadow(usize),
}

// A table of n nodes, and the work buffer after the walk through it, which reached them all.
#[derive(Clone, Copy)]
pub struct Stream<'a> {
    pub table: &'a [u16],
    pub work: &'a [u32],
    pub n: usize,
    pub ghost walked: { Walked table.now n work.now } by { Prim.hlevel walked_props },
}

impl Stream<'_> {
    ghost use Rattle.packing.specs.Stream.{Rest, Standing, Stepped, Took, ahead};

    // The cursor before the first trit; `at` is the place of the count of roots.
    pub fn first(&self, at: usize) -> Cursor
        requires { at ≡ start_of (graph_of self.now.table.now) self.now.n }
        ensures { Rest self.now.table.now self.now.n (walk (graph_of self.now.table.now)) result }
    {
        Cursor {
            i: 0,
            at: at + 1,
            left: usize::from(self.table[at]),
            ones: 0,
        }
    }

    // An operand: real if its level number is the next one.
    fn operand(&self, c: &mut Cursor) -> Trit
        requires { Standing self.now.table.now self.now.n c.old × (0 < c.old.left) }
        ensures told { (left : Walk) → Rest self.now.table.now self.now.n left c.old → Stepped self.now.table.now self.now.n left (Some result) c.new }
        ensures nearer { ahead self.now.n c.new < ahead self.now.n c.old }
    {
        let v = usize::from(self.table[c.at]);
        let p = self.work[self.n + v - 1] as usize % 65536;
        c.at += 1;
        c.left -= 1;
        if p == c.ones + 1 {
            c.ones = p;
            return Trit::Real;
        }
        Trit::Shadow(p)
    }

    // A row's end, and the next node is taken.
    fn row_end(&self, c: &mut Cursor) -> Trit
        requires { Standing self.now.table.now self.now.n c.old × (c.old.left ≡ 0) × (c.old.i < self.now.n) }
        ensures told { (left : Walk) → Rest self.now.table.now self.now.n left c.old → Stepped self.now.table.now self.now.n left (Some result) c.new }
        ensures nearer { ahead self.now.n c.new < ahead self.now.n c.old }
    {
        let v = self.work[2 * self.n + c.i] as usize;
        let at = self.work[v - 1] as usize;
        c.i += 1;
        c.at = at + 1;
        c.left = usize::from(self.table[at]);
        Trit::End
    }

    // The next trit, if one is left.
    pub fn step(&self, c: &mut Cursor) -> Option<Trit>
        requires { Standing self.now.table.now self.now.n c.old }
        ensures told { (left : Walk) → Rest self.now.table.now self.now.n left c.old → Stepped self.now.table.now self.now.n left result c.new }
        ensures nearer { IfSome result (λ t. ahead self.now.n c.new < ahead self.now.n c.old) }
    {
        if 0 < c.left {
            return Some(self.operand(c));
        }
        if c.i < self.n {
            return Some(self.row_end(c));
        }
        if c.i == self.n {
            c.i += 1;
            return Some(Trit::End);
        }
        None
    }

    // The next trit as a number, 0 where none is left.
    fn next_trit(&self, c: &mut Cursor) -> usize
        requires { Standing self.now.table.now self.now.n c.old }
        ensures { (result ≤ 2) × ((left : Walk) → Rest self.now.table.now self.now.n left c.old → Took self.now.table.now self.now.n 1 left result c.new) }
    {
        match self.step(c) {
            Some(Trit::End) => 0,
            Some(Trit::Real) => 1,
            Some(Trit::Shadow(_)) => 2,
            None => 0,
        }
    }

    // The next five trits: a tryte.
    pub fn next_tryte(&self, c: &mut Cursor) -> usize
        requires { Standing self.now.table.now self.now.n c.old }
        ensures { (result ≤ 242) × ((left : Walk) → Rest self.now.table.now self.now.n left c.old → Took self.now.table.now self.now.n 5 left result c.new) }
    {
        let mut value = 0;
        for weight in [1, 3, 9, 27, 81] {
            value += weight * self.next_trit(c);
        }
        value
    }
}
