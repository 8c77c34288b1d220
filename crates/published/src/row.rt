// A row of the table: id | place | published | call | image | presets | seen | verdict.
ghost use Rattle.std.specs.Prelude.{◌≡◌};
ghost use Rattle.published.specs.Row as spec;

use crate::board::{Board, bad, put, word_at, zero_board};
use crate::calls::perform;
use crate::names::place;
use crate::tally::Outcome;
use text::numerals::number;
use text::parts::{after, before, byte_at, part, split};
use text::tables::entry_of;

// The fields behind id, place and print.
pub(crate) const CALL: usize = 3;

pub(crate) const IMAGE: usize = 4;

pub(crate) const PRESETS: usize = 5;

pub(crate) const SEEN: usize = 6;

pub(crate) const VERDICT: usize = 7;

// Headings and empty lines are no examples.
pub(crate) fn is_heading(row: &[u8]) -> bool
    ensures { result ≡ spec.is_heading row.now }
{
    row.is_empty() | (byte_at(row, 0) == b'#')
}

// A field stands behind a bar and a space.
pub(crate) fn field(row: &[u8], k: usize) -> &[u8]
    ensures { result.now ≡ spec.field k row.now }
{
    after(part(row, k, b'|'), b' ')
}

// name=value, stored on the board.
fn preset(board: Board, token: &[u8]) -> Board
    ensures { result ≡ spec.preset board token.now }
{
    if token.is_empty() {
        return board;
    }
    let Some(value) = number(after(token, b'=')) else {
        return bad(board);
    };
    let Some(at) = place(before(token, b'=')) else {
        return bad(board);
    };
    put(board, at, value)
}

fn preset_all(text: &[u8]) -> Board
    ensures { result ≡ spec.presets text.now }
{
    split(text, b' ').fold(zero_board(), |board, token| preset(board, token))
}

// The board that a row's presets and call leave.
pub(crate) fn board_of(row: &[u8]) -> Board
    ensures { result ≡ spec.board_of row.now }
{
    let board = preset_all(field(row, PRESETS));
    perform(field(row, CALL), field(row, IMAGE), board)
}

// What a row expects to see, beside what its board has.
#[derive(Clone, Copy)]
pub(crate) enum Sight {
    Nothing,
    Same(u32),
    Other(u32, u32),
    Unread,
}

// A word found and the word expected.
fn compared(found: u32, expected: u32) -> Sight
    ensures { result ≡ spec.compared found expected }
{
    if found == expected {
        return Sight::Same(found);
    }
    Sight::Other(found, expected)
}

// name=value, looked up on the board.
pub(crate) fn see(board: Board, token: &[u8]) -> Sight
    ensures { result ≡ spec.sight_of board token.now }
{
    if token.is_empty() {
        return Sight::Nothing;
    }
    let Some(expected) = number(after(token, b'=')) else {
        return Sight::Unread;
    };
    let Some(at) = place(before(token, b'=')) else {
        return Sight::Unread;
    };
    compared(word_at(board, at), expected)
}

fn is_same(sight: Sight) -> bool
    ensures { result ≡ spec.is_same sight }
{
    matches!(sight, Sight::Nothing | Sight::Same(_))
}

// A row that expects nothing shows nothing.
pub(crate) fn expects(text: &[u8]) -> bool
    ensures { result ≡ spec.expects text.now }
{
    b' ' < byte_at(text, 0)
}

// Whether something is expected, and all of it seen.
fn all_seen(board: Board, text: &[u8]) -> bool
    ensures { result ≡ spec.all_seen board text.now }
{
    expects(text) && split(text, b' ').all(|token| is_same(see(board, token)))
}

// What a verdict says of the print, by its first word.
pub(crate) fn claim(verdict: &[u8]) -> Outcome
    ensures { result ≡ spec.claim verdict.now }
{
    let word = before(before(verdict, b' '), b':');
    match entry_of(b"same    analoguemoved   misprintchanged ", word) {
        Some(number) if number < 3 => Outcome::Printed,
        Some(_) => Outcome::Overruled,
        None => Outcome::Differs,
    }
}

pub(crate) fn is_claim(outcome: Outcome) -> bool
    ensures { result ≡ spec.is_claim outcome }
{
    matches!(outcome, Outcome::Printed | Outcome::Overruled)
}

pub(crate) fn outcome(row: &[u8], board: Board) -> Outcome
    ensures { result ≡ spec.outcome row.now board }
{
    let seen = all_seen(board, field(row, SEEN));
    if board.good & seen {
        return claim(field(row, VERDICT));
    }
    Outcome::Differs
}
