// What is written: a row with what was seen of it, and the tally.
use crate::board::Board;
use crate::row::{SEEN, Sight, VERDICT, claim, expects, field, is_claim, see};
use crate::tally::{Outcome, Tally};
use output::Output;
use std::io::Write;
use text::numerals::is_hex;
use text::parts::{after, before, part, split};

// In base sixteen where the row has it so.
fn tell_word<W: Write>(out: &mut Output<W>, w: u32, hex: bool) {
    if hex {
        return out.print(format_args!("0x{w:08x}"));
    }
    out.print(w);
}

fn tell_found<W: Write>(out: &mut Output<W>, token: &[u8], found: u32, hex: bool) {
    out.print(" ");
    out.tell(before(token, b'='));
    out.print("=");
    tell_word(out, found, hex);
}

fn tell_sight<W: Write>(out: &mut Output<W>, token: &[u8], sight: Sight) {
    let hex = is_hex(after(token, b'='));
    match sight {
        Sight::Nothing => {}
        Sight::Same(found) => tell_found(out, token, found, hex),
        Sight::Other(found, expected) => {
            tell_found(out, token, found, hex);
            out.print(" DIFFERS: expected ");
            tell_word(out, expected, hex);
        }
        Sight::Unread => {
            out.print(" DIFFERS: not understood: ");
            out.tell(token);
        }
    }
}

fn tell_sights<W: Write>(out: &mut Output<W>, board: Board, text: &[u8]) {
    for token in split(text, b' ') {
        tell_sight(out, token, see(board, token));
    }
}

// What of a row was not understood; of what is seen each word is told by itself.
fn tell_unless<W: Write>(out: &mut Output<W>, good: bool, what: &str) {
    if !good {
        out.print(format_args!(" DIFFERS: not understood: {what}"));
    }
}

pub(crate) fn tell_heading<W: Write>(out: &mut Output<W>, row: &[u8]) {
    out.tell(row);
    out.print("\n");
}

fn tell_outcome<W: Write>(out: &mut Output<W>, outcome: Outcome, verdict: &[u8]) {
    out.print(match outcome {
        Outcome::Differs => " | DIFFERS | ",
        _ => " | as 01 | ",
    });
    out.tell(verdict);
    out.print("\n");
}

// Its id, place and print, what was seen, and its verdict.
pub(crate) fn tell_row<W: Write>(out: &mut Output<W>, row: &[u8], board: Board, outcome: Outcome) {
    out.tell(part(row, 0, b'|'));
    out.print("|");
    out.tell(part(row, 1, b'|'));
    out.print("|");
    out.tell(part(row, 2, b'|'));
    out.print("|");
    let seen = field(row, SEEN);
    let verdict = field(row, VERDICT);
    tell_unless(out, board.good, "presets, call or image");
    tell_unless(out, expects(seen), "seen");
    tell_sights(out, board, seen);
    tell_unless(out, is_claim(claim(verdict)), "verdict");
    tell_outcome(out, outcome, verdict);
}

pub(crate) fn tell_cut<W: Write>(out: &mut Output<W>, failed: bool) {
    out.print(if failed {
        "DIFFERS: the table cannot be read\n"
    } else {
        "DIFFERS: the table is too long\n"
    });
}

pub(crate) fn tell_tally<W: Write>(out: &mut Output<W>, tally: Tally) {
    let all = tally
        .printed
        .wrapping_add(tally.overruled)
        .wrapping_add(tally.differ);
    out.print(format_args!(
        "{all} examples, {} as printed, {} overruled by 01, {} differ\n",
        tally.printed, tally.overruled, tally.differ
    ));
}
