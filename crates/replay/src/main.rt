// Program replay: runs the cases of the vector file on standard input, and tells the first number of each that differs.
#![tactic(auto)]

mod case;
mod cases;
mod compare;
mod file;
mod names;
mod outcome;
mod record;
mod tell;

use cases::replay;
use file::{NoWord, bytes_room, read_bytes, word_of, words_room};
use output::Output;
use std::io;
use tell::tell_total;

// A file without a count of cases has no total, so that it is not taken for one whose cases agree.
fn main(rt: HostRuntime) -> io::Result<()> {
    let mut from = rt.stdin();
    let mut out = Output::new(rt.stdout());
    let mut bytes = bytes_room();
    match word_of(read_bytes(&mut from, 4, &mut bytes), &bytes) {
        Err(NoWord::Ended) => out.print("the file is empty\n"),
        Err(NoWord::Cut) => out.print("the file ends inside its count of cases\n"),
        Err(NoWord::Failed) => out.print("the file cannot be read\n"),
        Ok(count) => {
            let mut words = words_room();
            let mut memory = words_room();
            let total = replay(
                &mut from,
                &mut out,
                count,
                &mut bytes,
                &mut words,
                &mut memory,
            );
            tell_total(&mut out, total);
        }
    }
    out.finish()
}
