// The listing program: reads a table from standard input, and writes its listing, or its refusal.
#![tactic(auto)]

ghost use Rattle.std.specs.Prelude.{◌≤◌, ◌<◌, length, take, IfOk};
ghost use Rattle.std.specs.Io.KnownBytes.{Consumes, IsAtEnd};

use std::io;
use std::io::{Read, Write};

// Reads until the buffer is full or the input ends, and answers how many bytes came: they stand at the buffer's front. A read may bring fewer bytes
// than are asked for, so no range says the turns.
fn read_full<R: Read>(input: &mut R, buffer: &mut [u8]) -> io::Result<usize>
    ensures bound { IfOk result (λ n. n ≤ length buffer.new) }
    ensures bytes { IfOk result (λ n. Consumes (R.remaining input.old) (R.remaining input.new) (take n buffer.new)) }
    ensures end { IfOk result (λ n. n < length buffer.new → IsAtEnd (R.remaining input.new)) }
{
    let mut done = 0;
    while done < buffer.len() {
        let size = input.read(&mut buffer[done..])?;
        if size == 0 {
            break;
        }
        done += size;
    }
    Ok(done)
}

fn main(rt: HostRuntime) -> io::Result<()> {
    let mut input = [0u8; 8001];
    let size = read_full(&mut rt.stdin(), &mut input)?;
    let mut text = [0u8; 100000];
    let end = listing::listing(&input[..size], &mut text);
    rt.stdout().write_all(&text[..end])
}
