// A text being written into lent bytes, word after word. Each contract says too that the text still holds the bytes that were lent (`same`): only so
// does the lender learn what they hold in the end. Numbers are put by hand, since `write!` says what it wrote only of a String, which needs the heap.
ghost use Rattle.std.specs.Prelude.{◌≡◌};
ghost use Rattle.format.specs.Listing.{decimal_in, decimal, refusal};
ghost use Rattle.format.specs.Answers.{refusal_number};
ghost use Rattle.listing.specs.Wrote.{Room, Wrote, field, three};

use format::Refusal;

// The words so far end before place `end`.
#[derive(Drop)]
pub struct Text<'a> {
    pub bytes: &'a mut [u8],
    pub end: usize,
}

impl Text<'_> {
    // Puts the bytes of a word.
    pub fn put(&mut self, word: &[u8])
        requires { Room self.old.bytes.now self.old.end word.now }
        ensures wrote { Wrote self.old.bytes.now self.old.end word.now self.new.end self.new.bytes.now }
        ensures same { self.new.bytes.ghost_name ≡ self.old.bytes.ghost_name }
    {
        let end = self.end + word.len();
        self.bytes[self.end..end].copy_from_slice(word);
        self.end = end;
    }

    // Puts a number in decimal, of at most `most` digits: its last digit behind the others.
    fn put_digits(&mut self, x: usize, most: usize)
        requires { Room self.old.bytes.now self.old.end (decimal_in most x) }
        ensures wrote { Wrote self.old.bytes.now self.old.end (decimal_in most x) self.new.end self.new.bytes.now }
        ensures same { self.new.bytes.ghost_name ≡ self.old.bytes.ghost_name }
    {
        if most == 0 {
            return;
        }
        if 10 <= x {
            self.put_digits(x / 10, most - 1);
        }
        let digit = (x % 10) as u8;
        self.put(&[b'0' + digit]);
    }

    // Puts a number in decimal.
    pub fn put_decimal(&mut self, x: usize)
        requires { Room self.old.bytes.now self.old.end (decimal x) }
        ensures wrote { Wrote self.old.bytes.now self.old.end (decimal x) self.new.end self.new.bytes.now }
        ensures same { self.new.bytes.ghost_name ≡ self.old.bytes.ghost_name }
    {
        self.put_digits(x, 10);
    }

    // Puts a word, and a number in decimal.
    pub fn put_field(&mut self, word: &[u8], x: usize)
        requires { Room self.old.bytes.now self.old.end (field word.now x) }
        ensures wrote { Wrote self.old.bytes.now self.old.end (field word.now x) self.new.end self.new.bytes.now }
        ensures same { self.new.bytes.ghost_name ≡ self.old.bytes.ghost_name }
    {
        self.put(word);
        self.put_decimal(x);
    }

    // Puts three words, each with a number.
    pub fn put_three(&mut self, a: &[u8], x: usize, b: &[u8], y: usize, c: &[u8], z: usize)
        requires { Room self.old.bytes.now self.old.end (three a.now x b.now y c.now z) }
        ensures wrote { Wrote self.old.bytes.now self.old.end (three a.now x b.now y c.now z) self.new.end self.new.bytes.now }
        ensures same { self.new.bytes.ghost_name ≡ self.old.bytes.ghost_name }
    {
        self.put_field(a, x);
        self.put_field(b, y);
        self.put_field(c, z);
    }

    // Puts the line of a refusal.
    pub fn put_refusal(&mut self, f: Refusal)
        requires { Room self.old.bytes.now self.old.end (refusal (refusal_number f)) }
        ensures wrote { Wrote self.old.bytes.now self.old.end (refusal (refusal_number f)) self.new.end self.new.bytes.now }
        ensures same { self.new.bytes.ghost_name ≡ self.old.bytes.ghost_name }
    {
        let code = u32::from(f);
        self.put_field(b"refused ", code as usize);
        self.put(b"\n");
    }
}
