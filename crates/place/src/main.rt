// Reads a table file on standard input and prints the listing of what the search answers.
#![tactic(auto)]

ghost use Rattle.std.specs.Prelude.{◌<◌, IfOk, length, take};
ghost use Rattle.std.specs.Io.{ReadsAtMost};
ghost use Rattle.std.specs.Io.KnownBytes.{Consumes, IsAtEnd};

use std::io;
use std::io::{Read, Write};

// Reads until the buffer is full or the input ends; returns how many bytes it put at the buffer's start.
fn read_full<R: Read>(input: &mut R, buffer: &mut [u8]) -> io::Result<usize>
    ensures bound { ReadsAtMost result buffer.new }
    ensures next { IfOk result (λ n. Consumes (R.remaining input.old) (R.remaining input.new) (take n buffer.new)) }
    ensures all { IfOk result (λ n. n < length buffer.new → IsAtEnd (R.remaining input.new)) }
{
    let mut filled: usize = 0;
    while filled < buffer.len() {
        let count = input.read(&mut buffer[filled..])?;
        if count == 0 {
            break;
        }
        filled += count;
    }
    Ok(filled)
}

fn main(rt: HostRuntime) -> io::Result<()> {
    let mut file = [0u8; 8192];
    let n = read_full(&mut rt.stdin(), &mut file)?;
    let mut answer = [0u8; 16384];
    let mut text = [0u8; 358400];
    let end = listing::listing(&mut text, &file[..n], &mut answer);
    rt.stdout().write_all(&text[..end])
}
