// The entries as C and Rust call them. A slice is a pointer and a length in elements; an answer of two numbers is one word,
// refusal * 2^32 + value. The proofs assume that lent slices lie apart; one of length 0 may have a dangling pointer.
#![tactic(auto)]

ghost use Rattle.std.specs.Prelude.{◌≡◌};
ghost use Rattle.format.specs.Answers.{packed_numbers};
ghost use Rattle.format.specs.Batch.{batch_outcome};
ghost use Rattle.format.specs.Packing.{pack_outcome};
ghost use Rattle.format.specs.Proper.{check_image};
ghost use Rattle.format.specs.Unpack.{unpack_outcome};
ghost use Rattle.glouds.specs.Exports.{as_word, pack_export, pack_exported, unpack_export, unpack_exported};

use format::{Refusal, Tally, code};

// A length as it is, or a refusal above the low 32 bits.
fn word(answer: Result<usize, Refusal>) -> u64
    ensures { result ≡ as_word (packed_numbers answer) }
{
    match answer {
        Ok(size) => size as u64,
        Err(r) => 4294967296 * u64::from(u32::from(r)),
    }
}

// Packs a table: the image's length, or a refusal from 1 to 9.
#[unsafe(no_mangle)]
pub extern "C" fn glouds_pack(
    table: &[u16],
    order: &mut [u16],
    work: &mut [u32],
    image: &mut [u8],
) -> u64
    ensures { pack_export (pack_outcome table.now order.old work.old image.old)
        ≡ pack_exported result order.new work.new image.new }
{
    word(packing::pack::pack(table, order, work, image))
}

// Checks an image: 0 for a proper one, or a refusal from 21 to 26.
#[unsafe(no_mangle)]
pub extern "C" fn glouds_check(image: &[u8]) -> u32
    ensures { result ≡ check_image image.now }
{
    code(proper::check::check(image))
}

// Unpacks an image: the table's length in words, or a refusal from 21 to 26 or 51.
#[unsafe(no_mangle)]
pub extern "C" fn glouds_unpack(image: &[u8], table: &mut [u16]) -> u64
    ensures { unpack_export (unpack_outcome image.now table.old) ≡ unpack_exported result table.new }
{
    word(unpacking::unpack(image, table))
}

// Answers a batch of questions, three words each, and adds it to the lent tally: 0, or a refusal from 41 to 43 or 21 to 26.
#[unsafe(no_mangle)]
pub extern "C" fn glouds_ask(
    image: &[u8],
    questions: &[u32],
    answers: &mut [u32],
    tally: &mut Tally,
) -> u32
    ensures { batch_outcome image.now questions.now answers.old tally.old
        ≡ record { code = result; words = answers.new; tally = tally.new } }
{
    let done = asking::batch::ask(image, questions, answers, *tally);
    *tally = done.tally;
    done.code
}
