// The names of a call's numbers, by their places: the report's, then the state's, then the memory words.
ghost use Rattle.std.specs.Prelude.{◌≡◌};
ghost use Rattle.replay.specs.Names.{name_of};

use crate::outcome::REPORT_WORDS;
use layout::table;
use output::Output;
use std::io::Write;

// How many words each block or IALU has of a file.
const R: usize = (table::TR_AT - table::R_AT) / 2;

const TR: usize = (table::THR_AT - table::TR_AT) / 2;

const THR: usize = (table::J_AT - table::THR_AT) / 2;

const J: usize = table::K_AT - table::J_AT;

const K: usize = table::BASE_AT - table::K_AT;

const BASE: usize = (table::LENGTH_AT - table::BASE_AT) / 2;

const LENGTH: usize = (table::FLAGS_AT - table::LENGTH_AT) / 2;

const END: usize = (table::DAB_AT - table::END_AT) / 2;

const DAB: usize = (table::STATE_WORDS - table::DAB_AT) / 2;

// The flags have one row for all groups.
const FLAGS: usize = table::END_AT - table::FLAGS_AT;

const ROWS: usize = 18;

// How many places the rows have: the report's, then the state's in the order of the layout.
const PLACES: [usize; ROWS] = [
    REPORT_WORDS,
    R,
    R,
    TR,
    TR,
    THR,
    THR,
    J,
    K,
    BASE,
    BASE,
    LENGTH,
    LENGTH,
    FLAGS,
    END,
    END,
    DAB,
    DAB,
];

// A row, and a place in it.
#[derive(Clone, Copy)]
struct Name {
    row: usize,
    place: usize,
}

fn name_of(at: usize) -> Name
    ensures { result ≡ name_of at }
{
    let mut place = at;
    for (row, places) in PLACES.iter().enumerate() {
        if place < *places {
            return Name { row, place };
        }
        place -= *places;
    }
    Name { row: ROWS, place }
}

fn tell_reported<W: Write>(out: &mut Output<W>, n: usize) {
    out.print(match n {
        0 => "code",
        1 => "line",
        2 => "slot",
        3 => "lines done",
        _ => "steps",
    });
}

fn tell_flags<W: Write>(out: &mut Output<W>, n: usize) {
    out.print(match n {
        0 => "X ALU flags",
        1 => "Y ALU flags",
        2 => "X shifter flags",
        3 => "Y shifter flags",
        4 => "X CLU flags",
        5 => "Y CLU flags",
        6 => "J flags",
        _ => "K flags",
    });
}

// Word n of an IALU's ends: each has a low and a high word.
fn tell_end<W: Write>(out: &mut Output<W>, ialu: &str, n: usize) {
    let half = if n % 2 == 0 { "low" } else { "high" };
    out.print(format_args!("{ialu} end {} {half} word", n / 2));
}

// What stands before the number of a word in a row. Rows keep their numbers, which name_of promises by the definition of places.
fn row_name(row: usize) -> &'static str {
    match row {
        1 => "X R",
        2 => "Y R",
        3 => "X TR",
        4 => "Y TR",
        5 => "X THR",
        6 => "Y THR",
        7 => "J ",
        8 => "K ",
        9 => "J base ",
        10 => "K base ",
        11 => "J length ",
        12 => "K length ",
        16 => "X DAB word ",
        17 => "Y DAB word ",
        _ => "memory word ",
    }
}

pub(crate) fn tell_name<W: Write>(out: &mut Output<W>, at: usize) {
    let Name { row, place: n } = name_of(at);
    match row {
        0 => tell_reported(out, n),
        13 => tell_flags(out, n),
        14 => tell_end(out, "J", n),
        15 => tell_end(out, "K", n),
        _ => out.print(format_args!("{}{n}", row_name(row))),
    }
}
