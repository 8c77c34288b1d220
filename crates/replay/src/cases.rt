// The cases of the vector file, one by one.
ghost use Rattle.std.specs.Prelude.{◌≡◌, ◌+◌, ◌-◌, ◌≤◌, ◌<◌};
ghost use Rattle.replay.specs.Case.{Room};
ghost use Rattle.replay.specs.Cases as spec;

use crate::case::{Failure, RECORD_WORDS, replay_record};
use crate::file::{Cut, NoWord, ending_of, read_bytes, word_of};
use crate::record::Fault;
use crate::tell::{tell_ending, tell_missing, tell_rest, tell_verdict};
use image::directory::index;
use output::Output;
use std::io::{Read, Write};

// A case: the words of its record as the file gives them, how its reading ended, and what differs in what was read.
#[derive(Clone, Copy)]
struct Case {
    words: u32,
    ending: Result<(), Cut>,
    verdict: Result<(), Failure>,
}

// How many cases there are, and how many of them differ.
#[derive(Clone, Copy)]
pub(crate) struct Total {
    pub cases: u32,
    pub differing: u32,
}

// The first and the last of cases that follow each other.
#[derive(Clone, Copy)]
pub(crate) struct Span {
    pub first: u32,
    pub last: u32,
}

// A record longer than its room is not held, so that the cases behind it are still replayed.
fn judge(
    n: u32,
    ending: Result<(), Cut>,
    bytes: &[u8],
    words: &mut [u32],
    memory: &mut [u32],
) -> Result<(), Failure>
    requires { Room bytes.now words.old memory.old }
    ensures { result ≡ spec.judged n ending bytes.now }
{
    let length = index(n);
    if RECORD_WORDS < length {
        return Err(Failure::Broken(Fault::Long(length)));
    }
    match ending {
        Ok(()) => replay_record(&bytes[0..4 * length], words, memory),
        Err(_) => Ok(()),
    }
}

// No contract can speak of what the file holds: the verdict is that of the bytes that were read into the buffer.
fn replay_case<R: Read>(
    from: &mut R,
    bytes: &mut [u8],
    words: &mut [u32],
    memory: &mut [u32],
) -> Case
    requires { Room bytes.old words.old memory.old }
    ensures { result.verdict ≡ spec.judged result.words result.ending bytes.new }
{
    match word_of(read_bytes(from, 4, bytes), bytes) {
        Ok(length) => {
            let n = 4 * index(length);
            let ending = ending_of(read_bytes(from, n, bytes), n);
            let verdict = judge(length, ending, bytes, words, memory);
            Case {
                words: length,
                ending,
                verdict,
            }
        }
        Err(missing) => Case {
            words: 0,
            ending: Err(Cut::from(missing)),
            verdict: Ok(()),
        },
    }
}

// A record whose length the file does not give.
impl From<NoWord> for Cut {
    ghost from_gives = { λ missing result. result ≡ spec.cut_of missing };

    fn from(missing: NoWord) -> Cut {
        match missing {
            NoWord::Ended => Cut::Before,
            NoWord::Cut => Cut::InLength,
            NoWord::Failed => Cut::Failed,
        }
    }
}

// So many cases of the file were replayed, and so many of them differ. Where a read failed behind them, the total is of these;
// else it is of all, and those that the file does not hold differ.
fn total_of(count: u32, replayed: u32, differing: u32, failed: bool) -> Result<Total, Total>
    requires { (differing ≤ replayed) × (replayed ≤ count) }
    ensures { result ≡ spec.total_of count replayed differing failed }
{
    if failed {
        return Err(Total {
            cases: replayed,
            differing,
        });
    }
    Ok(Total {
        cases: count,
        differing: differing + (count - replayed),
    })
}

// The cases behind the one in which the file ends.
fn behind(case: u32, count: u32) -> Span
    requires { case < count }
    ensures { (result.first ≡ case + 1) × (result.last ≡ count - 1) }
{
    Span {
        first: case + 1,
        last: count - 1,
    }
}

// Each case is told as it is replayed. The total is of all cases, or of those before a failed read.
pub(crate) fn replay<R: Read, W: Write>(
    from: &mut R,
    out: &mut Output<W>,
    count: u32,
    bytes: &mut [u8],
    words: &mut [u32],
    memory: &mut [u32],
) -> Result<Total, Total>
    requires { Room bytes.old words.old memory.old }
    ensures { spec.Within count result }
{
    let mut differing: u32 = 0;
    for case in 0..count {
        let replayed = replay_case(from, bytes, words, memory);
        tell_verdict(out, case, replayed.verdict);
        tell_ending(out, case, replayed.ending);
        match replayed.ending {
            Ok(()) => {}
            Err(Cut::Failed) => return total_of(count, case, differing, true),
            Err(_) => {
                tell_missing(out, behind(case, count));
                return total_of(count, case, differing, false);
            }
        }
        if replayed.verdict.is_err() {
            differing += 1;
        }
    }
    let rest = read_bytes(from, 1, bytes);
    tell_rest(out, rest);
    total_of(count, count, differing, rest.is_err())
}
