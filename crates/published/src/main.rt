// Program published: the reference's worked examples, a row each of the table on standard input, run through the calls of C.
#![tactic(auto)]

mod board;
mod calls;
mod names;
mod row;
mod tally;
mod tell;

use input::fill;
use output::Output;
use std::io;
use tally::{Outcome, counted, run_table};
use tell::{tell_cut, tell_tally};

// Bytes of room for the table.
const ROOM: usize = 131072;

// A table that cannot be read to its end counts as a difference; one that fills the room may go on.
fn main(rt: HostRuntime) -> io::Result<()> {
    let mut table = [0u8; ROOM];
    let filled = fill(&mut rt.stdin(), &mut table);
    let n = filled.unwrap_or_else(|unread| unread.bytes);
    let mut out = Output::new(rt.stdout());
    let mut tally = run_table(&mut out, &table[..n]);
    if filled.is_err() | (n == ROOM) {
        tell_cut(&mut out, filled.is_err());
        tally = counted(tally, Outcome::Differs);
    }
    tell_tally(&mut out, tally);
    out.finish()
}
