// Reads a whole input into a buffer, for the programs.
#![tactic(auto)]

ghost use Rattle.std.specs.Prelude.{◌≡◌, ◌≤◌, ◌<◌, IfOk, length, take};
ghost use Rattle.reading.specs.Size.{size_of};
ghost use Rattle.std.specs.Io.KnownBytes.{Consumes, IsAtEnd};

use std::io::Read;

// A read failed after so many bytes.
#[derive(Clone, Copy)]
pub struct CutShort {
    pub size: usize,
}

// Reads until the buffer is full, the input ends or a read fails: how many bytes were read.
pub fn read_input<R: Read>(from: &mut R, buffer: &mut [u8]) -> Result<usize, CutShort>
    ensures within { size_of result ≤ length buffer.new }
    ensures whole { size_of result ≡ length (take (size_of result) buffer.new) }
    ensures bytes { Consumes (R.remaining from.old) (R.remaining from.new) (take (size_of result) buffer.new) }
    ensures end { IfOk result (λ size. size < length buffer.new → IsAtEnd (R.remaining from.new)) }
{
    let mut size: usize = 0;
    while size < buffer.len() {
        match from.read(&mut buffer[size..]) {
            Ok(0) => return Ok(size),
            Ok(n) => size += n,
            Err(_) => return Err(CutShort { size }),
        }
    }
    Ok(size)
}
