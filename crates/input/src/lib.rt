// Reading a reader into a buffer, with a failed read told from the end of the input.
#![tactic(auto)]

ghost use Rattle.std.specs.Prelude.{◌<◌, length, take, OnOk, OnErr};
ghost use Rattle.std.specs.Io.KnownBytes.{Consumes, IsAtEnd};
ghost use Rattle.std.specs.Counts.{IsPrefixLen};
ghost use Rattle.input.specs.Filled.{filled};

use std::io::Read;

// A read failed; so many bytes were read into the buffer's start before it.
#[derive(Clone, Copy, PartialEq, Eq)]
pub struct Unread {
    pub bytes: usize,
}

// Reads until the buffer is full, the input ends or a read fails; one that a signal interrupts fails. Where none failed, as many
// bytes as are given stand at the buffer's start, and if it is not full, the input ends behind them. What a file or a terminal
// gives no contract can say; of a reader whose bytes are known, those read are in the buffer, and no other is lost.
pub fn fill<R: Read>(from: &mut R, buffer: &mut [u8]) -> Result<usize, Unread>
    ensures prefix_len { IsPrefixLen (filled result) buffer.new }
    ensures bytes_in_bounds { OnErr result (filled result < length buffer.new) }
    ensures taken { Consumes (R.remaining from.old) (R.remaining from.new) (take (filled result) buffer.new) }
    ensures ended { OnOk result (filled result < length buffer.new → IsAtEnd (R.remaining from.new)) }
{
    let mut done: usize = 0;
    // A reader says only as it is read how many bytes it gives, so that no range or iterator counts the turns.
    while done < buffer.len() {
        match from.read(&mut buffer[done..]) {
            Ok(0) => return Ok(done),
            Ok(more) => done += more,
            Err(_) => return Err(Unread { bytes: done }),
        }
    }
    Ok(done)
}

#[cfg(test)]
mod tests;
