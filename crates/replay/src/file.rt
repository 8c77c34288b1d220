// The vector file on standard input.
ghost use Rattle.std.specs.Prelude.{◌≡◌, ◌*◌, ◌≤◌, ◌<◌, length, OnErr};
ghost use Rattle.input.specs.Filled.{filled};
ghost use Rattle.replay.specs.Case.{record_words};
ghost use Rattle.replay.specs.File as spec;

use crate::case::RECORD_WORDS;
use image::bytes::load_words;
use input::{Unread, fill};
use std::io::Read;

// The bytes of the longest record.
pub(crate) const RECORD_BYTES: usize = 4 * RECORD_WORDS;

// The file ends before a word or inside it, or a read failed.
#[derive(Clone, Copy)]
pub(crate) enum NoWord {
    Ended,
    Cut,
    Failed,
}

// The file ends before a case's record, inside the record's length or inside the record; or a read failed.
#[derive(Clone, Copy)]
pub(crate) enum Cut {
    Before,
    InLength,
    InRecord,
    Failed,
}

// Room for the bytes of the longest record. The contract gives only the length, which lending it needs: main cannot compute
// so long an array. Words have a room of their own below: a generic room would take type, length and zero as parameters.
pub(crate) fn bytes_room() -> [u8; RECORD_BYTES]
    ensures { 4 * record_words ≡ length result }
{
    [0; RECORD_BYTES]
}

// Room for its words, or for its memory.
pub(crate) fn words_room() -> [u32; RECORD_WORDS]
    ensures { record_words ≡ length result }
{
    [0; RECORD_WORDS]
}

// Reads so many bytes, as far as the file has them; a read failed only where they are fewer. Where they are more than the
// buffer holds, the last lie in it.
pub(crate) fn read_bytes<R: Read>(from: &mut R, n: usize, bytes: &mut [u8]) -> Result<usize, Unread>
    requires { 0 < length bytes.old }
    ensures { (filled result ≤ n) × OnErr result (filled result < n) }
{
    let room = bytes.len();
    let mut done: usize = 0;
    // A turn reads, and ends the loop where the file does.
    while room < n - done {
        match fill(from, bytes) {
            Ok(part) if part < room => return Ok(done + part),
            Ok(_) => {}
            Err(e) => return Err(Unread {
                bytes: done + e.bytes,
            }),
        }
        done += room;
    }
    let left = n - done;
    match fill(from, &mut bytes[0..left]) {
        Ok(last) => Ok(done + last),
        Err(e) => Err(Unread {
            bytes: done + e.bytes,
        }),
    }
}

// The word at the front of the buffer, of which so many bytes were read.
pub(crate) fn word_of(read: Result<usize, Unread>, bytes: &[u8]) -> Result<u32, NoWord>
    ensures { result ≡ spec.word_of read bytes.now }
{
    let n = match read {
        Ok(n) => n,
        Err(_) => return Err(NoWord::Failed),
    };
    if n == 0 {
        return Err(NoWord::Ended);
    }
    if n < 4 {
        return Err(NoWord::Cut);
    }
    let mut word = [0u32; 1];
    load_words(bytes, &mut word);
    Ok(word[0])
}

// Of a record of n bytes.
pub(crate) fn ending_of(read: Result<usize, Unread>, n: usize) -> Result<(), Cut>
    ensures { result ≡ spec.ending_of read n }
{
    match read {
        Err(_) => Err(Cut::Failed),
        Ok(got) if got == n => Ok(()),
        Ok(_) => Err(Cut::InRecord),
    }
}
