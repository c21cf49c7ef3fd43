// The buyer's rules, run: a line for each case of "Both sides of each line" that is not proved alone, for each refusal, and for each error seen in packers,
// compared with the file stdout. Work is lent full of sevens, so that a line can say how many of its words became zero and how many stayed.
#![tactic(auto)]

use format::Tally;
use std::fmt::Display;
use std::io;
use std::io::Print;

// A space and a number, for each word.
fn say_words<T: Display>(rt: &impl Print, words: &[T]) -> io::Result<()> {
    for word in words {
        print!(rt; " {word}")?;
    }
    Ok(())
}

// ---- packing

// How many words are `x`.
fn count(words: &[u32], x: u32) -> usize {
    words.iter().filter(|word| **word == x).count()
}

// The first `size` bytes, or all where there are fewer.
fn front(bytes: &[u8], size: usize) -> &[u8] {
    bytes.get(..size).unwrap_or(bytes)
}

// Packs a table, and says the answer and what became of the work.
fn pack_in(
    rt: &impl Print,
    name: &str,
    table: &[u16],
    order: &mut [u16],
    work: &mut [u32],
    image: &mut [u8],
) -> io::Result<()> {
    print!(rt; "{name}")?;
    match packing::pack::pack(table, order, work, image) {
        Err(f) => print!(rt; "{f}")?,
        Ok(size) => {
            print!(rt; "{size} bytes, order")?;
            say_words(rt, order)?;
        }
    }
    let zero = count(work, 0);
    let before = count(work, 7);
    println!(rt; "; work: {zero} words zero, {before} as before")
}

// A table by its words.
fn pack(rt: &impl Print, table: &[u16]) -> io::Result<()> {
    let mut order = [0u16; 8];
    let mut work = [7u32; 30];
    let mut image = [0u8; 105];
    print!(rt; "table")?;
    say_words(rt, table)?;
    pack_in(rt, ": ", table, &mut order, &mut work, &mut image)
}

// Words front to back: the first fault among 1 to 5, then 6; a node that no root reaches is 8, and clears the work called for.
fn tables_refused(rt: &impl Print) -> io::Result<()> {
    pack(rt, &[])?;
    pack(rt, &[0])?;
    pack(rt, &[30001])?;
    pack(rt, &[1, 1, 2])?;
    pack(rt, &[1, 0, 1, 2])?;
    pack(rt, &[0, 1, 1])?;
    pack(rt, &[1, 0, 2, 1, 1])?;
    pack(rt, &[0, 0, 7])?;
    pack(rt, &[2, 0, 0, 1, 1])?;
    pack(rt, &[1, 0, 0])
}

// The table of the drawn graph.
const DRAWN: [u16; 22] = [
    8, 2, 2, 3, 1, 4, 2, 4, 5, 2, 6, 7, 2, 7, 8, 1, 8, 0, 1, 7, 1, 1,
];

// The drawn graph, with each buffer one too short, and with room.
fn drawn_packed(rt: &impl Print) -> io::Result<()> {
    let mut order = [0u16; 8];
    let mut image = [0u8; 105];
    let mut short_order = [0u16; 7];
    let mut short_image = [0u8; 104];
    let mut short_work = [7u32; 23];
    let mut work = [7u32; 30];
    let mut more_work = [7u32; 30];
    let name = "drawn graph, order list of 7: ";
    pack_in(rt, name, &DRAWN, &mut short_order, &mut work, &mut image)?;
    let name = "drawn graph, work of 23: ";
    pack_in(rt, name, &DRAWN, &mut order, &mut short_work, &mut image)?;
    let name = "drawn graph, image of 104: ";
    pack_in(rt, name, &DRAWN, &mut order, &mut work, &mut short_image)?;
    let name = "drawn graph: ";
    pack_in(rt, name, &DRAWN, &mut order, &mut more_work, &mut image)
}

// The table of 30,000 nodes, all roots, no edges.
fn many(table: &mut [u16; 60002]) {
    table[0] = 30000;
    table[30001] = 30000;
    for (root, i) in table[30002..].iter_mut().zip(1..) {
        *root = i;
    }
}

// That table, packed.
fn many_packed(rt: &impl Print) -> io::Result<()> {
    let mut table = [0; 60002];
    many(&mut table);
    let mut order = [0u16; 30000];
    let mut work = [0u32; 90000];
    let mut image = [0u8; 30000];
    print!(rt; "30000 roots: ")?;
    match packing::pack::pack(&table, &mut order, &mut work, &mut image) {
        Err(f) => println!(rt; "{f}"),
        Ok(size) => {
            let trits = little::get::<4>(&image, 0);
            println!(rt; "{size} bytes, trits {trits}")
        }
    }
}

// ---- images

// The image of the drawn graph, and a byte more.
fn drawn() -> [u8; 106] {
    let mut order = [0u16; 8];
    let mut work = [0u32; 24];
    let mut image = [0u8; 106];
    let _ = packing::pack::pack(&DRAWN, &mut order, &mut work, &mut image);
    image
}

fn check(rt: &impl Print, name: &str, image: &[u8]) -> io::Result<()> {
    match proper::check::check(image) {
        Ok(()) => println!(rt; "{name}: proper"),
        Err(f) => println!(rt; "{name}: {f}"),
    }
}

// The first bytes of the drawn graph's image.
fn cut(rt: &impl Print, name: &str, size: usize) -> io::Result<()> {
    check(rt, name, front(&drawn(), size))
}

// That image with bytes changed.
fn damaged(rt: &impl Print, name: &str, changes: &[(usize, u8)]) -> io::Result<()> {
    let mut image = drawn();
    for &(at, byte) in changes {
        if at < image.len() {
            image[at] = byte;
        }
    }
    check(rt, name, front(&image, 105))
}

fn images_cut(rt: &impl Print) -> io::Result<()> {
    cut(rt, "drawn graph", 105)?;
    cut(rt, "no bytes", 0)?;
    cut(rt, "a count of 3 bytes", 3)?;
    cut(rt, "section 1 of 4 trytes", 8)?;
    cut(rt, "section 8 last", 99)?;
    cut(rt, "a byte missing", 104)
}

// Each line breaks the rule that it names and no other of section 1's.
fn trits_wrong(rt: &impl Print) -> io::Result<()> {
    damaged(rt, "L too large", &[(2, 2)])?;
    damaged(rt, "L 0", &[(0, 0)])?;
    damaged(rt, "a byte of 243", &[(8, 243)])?;
    damaged(rt, "padding not 0", &[(8, 3)])?;
    damaged(rt, "a 2 before the first zero", &[(4, 68)])?;
    damaged(rt, "a zero before its one", &[(4, 109)])?;
    damaged(rt, "a one too many", &[(4, 40)])?;
    damaged(rt, "a last trit of 2", &[(7, 6), (8, 2)])
}

fn index_wrong(rt: &impl Print) -> io::Result<()> {
    damaged(rt, "count of section 2", &[(9, 5)])?;
    damaged(rt, "a shadow of no node", &[(13, 0)])?;
    damaged(rt, "count of section 3", &[(21, 9)])?;
    damaged(rt, "a mark too many", &[(25, 201)])?;
    damaged(rt, "a start in section 4", &[(41, 2)])?;
    damaged(rt, "a place in section 5", &[(57, 13)])?;
    damaged(rt, "a pair in section 6", &[(77, 1)])?;
    damaged(rt, "a pair in section 7", &[(89, 1)])?;
    damaged(rt, "count of section 8", &[(93, 2)])?;
    damaged(rt, "a sample in section 9", &[(103, 1)])?;
    cut(rt, "a byte more", 106)
}

// ---- unpacking

fn unpack(rt: &impl Print, name: &str, image: &[u8], table: &mut [u16]) -> io::Result<()> {
    match unpacking::unpack(image, table) {
        Err(f) => print!(rt; "{name}{f}; table")?,
        Ok(size) => print!(rt; "{name}{size} words; table")?,
    }
    say_words(rt, table)?;
    println!(rt)
}

fn drawn_unpacked(rt: &impl Print) -> io::Result<()> {
    let whole = drawn();
    let image = front(&whole, 105);
    let mut short = [9u16; 21];
    let mut table = [9u16; 23];
    unpack(rt, "drawn graph, table of 21: ", image, &mut short)?;
    unpack(rt, "drawn graph, table of 23: ", image, &mut table)
}

// ---- questions

const NONE: Tally = Tally {
    asked: 0,
    answered: 0,
    refused: 0,
};

// A batch about an image, with room for one answer: its number, the answers' words, the tally.
fn ask(
    rt: &impl Print,
    name: &str,
    image: &[u8],
    questions: &[u32],
    tally: Tally,
) -> io::Result<()> {
    let mut answers = [9u32; 3];
    let done = asking::batch::ask(image, questions, &mut answers, tally);
    let left = done.tally;
    print!(rt; "{name}, asked")?;
    say_words(rt, questions)?;
    print!(rt; ": {}; answers", done.code)?;
    say_words(rt, &answers)?;
    print!(rt; "; tally")?;
    say_words(rt, &[left.asked, left.answered, left.refused])?;
    println!(rt)
}

// One question about the drawn graph. Its kind is a number, since one of them is no kind.
fn one(rt: &impl Print, name: &str, kind: u32, a: u32, b: u32) -> io::Result<()> {
    ask(rt, name, front(&drawn(), 105), &[kind, a, b], NONE)
}

fn questions_asked(rt: &impl Print) -> io::Result<()> {
    one(rt, "rank of 1 before L", 1, 1, 21)?;
    one(rt, "rank of 1 before L + 1", 1, 1, 22)?;
    one(rt, "kind 7", 7, 1, 0)?;
    one(rt, "operands of node 9", 3, 9, 0)?;
    one(rt, "third operand of node 1", 4, 1, 3)
}

fn batches_refused(rt: &impl Print) -> io::Result<()> {
    let whole = drawn();
    let image = front(&whole, 105);
    let full = Tally {
        asked: 0,
        answered: 4294967295,
        refused: 0,
    };
    ask(rt, "batch of 2 words", image, &[3, 1], NONE)?;
    ask(rt, "answers of 3 words", image, &[3, 1, 0, 3, 2, 0], NONE)?;
    ask(rt, "a full tally field", image, &[3, 1, 0], full)?;
    ask(rt, "no question, a full tally field", image, &[], full)?;
    ask(rt, "no question, no image", &[], &[], NONE)
}

// ---- errors seen in packers

// One question about a table's image; its kind is the question's first word.
fn pack_ask(rt: &impl Print, table: &[u16], kind: u32, a: u32, b: u32) -> io::Result<()> {
    let mut order = [0u16; 12];
    let mut work = [0u32; 36];
    let mut image = [0u8; 200];
    print!(rt; "table")?;
    say_words(rt, table)?;
    match packing::pack::pack(table, &mut order, &mut work, &mut image) {
        Err(f) => println!(rt; ": {f}"),
        Ok(size) => ask(rt, "", front(&image, size), &[kind, a, b], NONE),
    }
}

// Trytes counted from n + m + c; a user lost; a sample too few where L is 25; H held to n alone; operands by the table's numbers.
fn errors_seen(rt: &impl Print) -> io::Result<()> {
    let ninth = "the ninth zero of the drawn graph, its last trit";
    one(rt, ninth, 2, 0, 9)?;
    one(rt, "uses of node 7", 5, 7, 0)?;
    one(rt, "user 3 of node 7", 6, 7, 3)?;
    let roots = [
        12, 0, 0, 0, 0, 0, 0, 0, 0, 0, 0, 0, 0, 12, 1, 2, 3, 4, 5, 6, 7, 8, 9, 10, 11, 12,
    ];
    pack_ask(rt, &roots, 1, 0, 25)?;
    damaged(rt, "a shadow not yet seen", &[(13, 5)])?;
    pack_ask(rt, &[3, 2, 3, 2, 0, 1, 2, 1, 1], 6, 3, 2)
}

fn main(rt: HostRuntime) -> io::Result<()> {
    tables_refused(&rt)?;
    drawn_packed(&rt)?;
    many_packed(&rt)?;
    images_cut(&rt)?;
    trits_wrong(&rt)?;
    index_wrong(&rt)?;
    drawn_unpacked(&rt)?;
    questions_asked(&rt)?;
    batches_refused(&rt)?;
    errors_seen(&rt)
}
