// How the rows of a table came out.
ghost use Rattle.std.specs.Prelude.{◌≡◌};
ghost use Rattle.published.specs.Tally as spec;

use crate::row::{board_of, is_heading, outcome};
use crate::tell::{tell_heading, tell_row};
use output::Output;
use std::io::Write;
use text::parts::split;

// As the reference prints it, with another result that 01 rules, or not as the row says.
#[derive(Clone, Copy)]
pub(crate) enum Outcome {
    Printed,
    Overruled,
    Differs,
}

#[derive(Clone, Copy)]
pub(crate) struct Tally {
    pub printed: u64,
    pub overruled: u64,
    pub differ: u64,
}

pub(crate) fn counted(tally: Tally, outcome: Outcome) -> Tally
    ensures { result ≡ spec.counted tally outcome }
{
    let mut next = tally;
    match outcome {
        Outcome::Printed => next.printed = tally.printed.wrapping_add(1),
        Outcome::Overruled => next.overruled = tally.overruled.wrapping_add(1),
        Outcome::Differs => next.differ = tally.differ.wrapping_add(1),
    }
    next
}

// Headings and empty lines are copied; a row is told with its outcome.
fn take_row<W: Write>(out: &mut Output<W>, tally: Tally, row: &[u8]) -> Tally
    ensures { result ≡ spec.taken tally row.now }
{
    if is_heading(row) {
        tell_heading(out, row);
        return tally;
    }
    let board = board_of(row);
    let outcome = outcome(row, board);
    tell_row(out, row, board, outcome);
    counted(tally, outcome)
}

// Every line of the table.
pub(crate) fn run_table<W: Write>(out: &mut Output<W>, table: &[u8]) -> Tally
    ensures { result ≡ spec.tally_of table.now }
{
    let mut tally = Tally {
        printed: 0,
        overruled: 0,
        differ: 0,
    };
    for row in split(table, b'\n') {
        tally = take_row(out, tally, row);
    }
    tally
}
