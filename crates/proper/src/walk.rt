// What a checker holds of an image once its sections 1 and 2 have passed. The bytes say which trits and which shadows they are.
ghost use Rattle.std.specs.Prelude.{◌≡◌, length};
ghost use Rattle.format.specs.Trits.{untrytes};
ghost use Rattle.format.specs.Image.{from_bytes};
ghost use Rattle.samples.specs.Lent.{TritsIn};
ghost use Rattle.proper.specs.Known.{Known};

// The trits of section 1: its trytes, and how many trits they hold.
#[derive(Clone, Copy)]
pub struct Trits<'a> {
    pub bytes: &'a [u8],
    pub count: usize,
    pub ghost trits_in: { TritsIn (untrytes count bytes.now) bytes.now },
    pub ghost counted: { length (untrytes count bytes.now) ≡ count },
}

// A walk, as sections 1 and 2 hold it: its trits, and its shadows, two bytes each.
#[derive(Clone, Copy)]
pub struct Walk<'a> {
    pub trits: Trits<'a>,
    pub shadows: &'a [u8],
    pub ghost known: { Known (untrytes trits.count trits.bytes.now) (from_bytes 2 shadows.now) trits.bytes.now shadows.now },
}
