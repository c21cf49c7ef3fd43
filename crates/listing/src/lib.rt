// The text of the listing program.
#![tactic(auto)]

mod lines;
mod text;

ghost use Rattle.std.specs.Prelude.{◌≡◌, ◌*◌, ◌%◌, ◌≤◌, ◌&&◌, eqb, leb, length};
ghost use Rattle.format.specs.Lists.{over};
ghost use Rattle.format.specs.Table.{read_table};
ghost use Rattle.format.specs.Image.{from_bytes};
ghost use Rattle.format.specs.Proper.{check_image, trits_of, shadows_of};
ghost use Rattle.format.specs.Listing.{listing, table_text, listing_outcome, listing_leaves};
ghost use Rattle.listing.specs.Wrote.{Room, Wrote};

use crate::text::Text;
use format::{MAX_INPUT, Refusal};
use packing::pack::pack;
use proper::check::examine;

// Puts the listing of a proper image.
fn put_listing(text: &mut Text, bytes: &[u8])
    requires { (check_image bytes.now ≡ 0) × Room text.old.bytes.now text.old.end (listing (trits_of bytes.now) (shadows_of bytes.now)) }
    ensures wrote { Wrote text.old.bytes.now text.old.end (listing (trits_of bytes.now) (shadows_of bytes.now)) text.new.end text.new.bytes.now }
    ensures same { text.new.bytes.ghost_name ≡ text.old.bytes.ghost_name }
{
    let Ok(image) = examine(bytes) else {
        return;
    };
    lines::put_counts(text, &image);
    lines::put_nodes(text, &image);
}

// Puts the text for a table; the buffers that it packs with have room enough.
fn put_table(text: &mut Text, table: &[u16])
    requires { (length table.now ≤ 4000) × Room text.old.bytes.now text.old.end (table_text (read_table table.now)) }
    ensures wrote { Wrote text.old.bytes.now text.old.end (table_text (read_table table.now)) text.new.end text.new.bytes.now }
    ensures same { text.new.bytes.ghost_name ≡ text.old.bytes.ghost_name }
{
    let mut order = [0u16; 4000];
    let mut work = [0u32; 12000];
    let mut image = [0u8; 32768];
    match pack(table, &mut order, &mut work, &mut image) {
        Err(f) => text.put_refusal(f),
        Ok(size) => put_listing(text, &image[..size]),
    }
}

// Whether the bytes are whole words, and no more than the program reads.
fn words_fit(input: &[u8]) -> bool
    ensures { result ≡ (eqb (length input.now % 2) 0 && leb (length input.now) 8000) }
{
    input.len() % 2 == 0 && input.len() <= MAX_INPUT
}

// Reads a table's words, two bytes a word, low byte first.
fn read_words(input: &[u8], words: &mut [u16])
    requires { (length input.now % 2 ≡ 0) × (length input.now ≤ 2 * length words.old) }
    ensures { words.new ≡ over (from_bytes 2 input.now) words.old }
{
    for i in 0..input.len() / 2 {
        words[i] = little::get::<2>(input, 2 * i) as u16;
    }
}

// The text of the listing program for the bytes of standard input: its length, and the text over the front of the buffer.
pub fn listing(input: &[u8], text: &mut [u8; 100000]) -> usize
    ensures { listing_outcome input.now text.old ≡ listing_leaves result text.new }
{
    let mut out = Text {
        bytes: text,
        end: 0,
    };
    if words_fit(input) {
        let mut words = [0u16; 4000];
        read_words(input, &mut words);
        put_table(&mut out, &words[..input.len() / 2]);
    } else {
        out.put_refusal(Refusal::InputWrong);
    }
    out.end
}
