// The board: all that a row presets or sees, each word of it a place with a number.
ghost use Rattle.std.specs.Prelude.{◌≡◌};
ghost use Rattle.published.specs.Board as spec;

use bits::flags::{bit, flag, flag_word};
use debugger::flat_report::REPORT_WORDS;
use layout::table::{FLAGS_AT, STATE_WORDS};

pub(crate) const MEMORY_WORDS: usize = 128;

// A state's words, the memory, a call's report, and the condition call's answer. It is good while all of the row is understood;
// the flag stays beside the words, since what is printed of a row that is not understood is read from them, too.
#[derive(Clone, Copy)]
pub(crate) struct Board {
    pub files: [u32; STATE_WORDS],
    pub memory: [u32; MEMORY_WORDS],
    pub report: [u32; REPORT_WORDS],
    pub answer: u32,
    pub good: bool,
}

// Places: the state's words, then these; each flag has a place of its own.
pub(crate) const MEMORY_AT: usize = STATE_WORDS;

pub(crate) const REPORT_AT: usize = MEMORY_AT + MEMORY_WORDS;

pub(crate) const ANSWER_AT: usize = REPORT_AT + REPORT_WORDS;

pub(crate) const FLAG_AT: usize = ANSWER_AT + 1;

pub(crate) const PLACES: usize = FLAG_AT + 32;

pub(crate) fn zero_board() -> Board
    ensures { result ≡ spec.zero_board }
{
    Board {
        files: [0; STATE_WORDS],
        memory: [0; MEMORY_WORDS],
        report: [0; REPORT_WORDS],
        answer: 0,
        good: true,
    }
}

// What a row calls something that no reader understands.
pub(crate) fn bad(board: Board) -> Board
    ensures { result ≡ spec.bad board }
{
    let mut next = board;
    next.good = false;
    next
}

// The word at a place; 0 past the last. No get: the places go over four arrays.
pub(crate) fn word_at(board: Board, place: usize) -> u32
    ensures { result ≡ spec.word_at board place }
{
    if place < MEMORY_AT {
        return board.files[place];
    }
    if place < REPORT_AT {
        return board.memory[place - MEMORY_AT];
    }
    if place < ANSWER_AT {
        return board.report[place - REPORT_AT];
    }
    if place < FLAG_AT {
        return board.answer;
    }
    if place < PLACES {
        let i = place - FLAG_AT;
        return bit(flag((i % 4) as u32, board.files[FLAGS_AT + i / 4]));
    }
    0
}

// Flag k of a group in which flag i is set to a value; flag_word takes the four flags one by one, and no array of them.
fn chosen(i: u32, on: bool, k: u32, group: u32) -> bool
    ensures { result ≡ spec.chosen i on k group }
{
    if i == k {
        return on;
    }
    flag(k, group)
}

fn with_flag(i: u32, on: bool, group: u32) -> u32
    ensures { result ≡ spec.with_flag i on group }
{
    flag_word(
        chosen(i, on, 0, group),
        chosen(i, on, 1, group),
        chosen(i, on, 2, group),
        chosen(i, on, 3, group),
    )
}

fn put_word(board: Board, place: usize, value: u32) -> Board
    ensures { result ≡ spec.put_word board place value }
{
    let mut next = board;
    if place < MEMORY_AT {
        let mut files = board.files;
        files[place] = value;
        next.files = files;
        return next;
    }
    if place < REPORT_AT {
        let mut memory = board.memory;
        memory[place - MEMORY_AT] = value;
        next.memory = memory;
        return next;
    }
    bad(board)
}

// A word stored at a place; only the state and the memory take one.
pub(crate) fn put(board: Board, place: usize, value: u32) -> Board
    ensures { result ≡ spec.put board place value }
{
    if place < FLAG_AT {
        return put_word(board, place, value);
    }
    if place < PLACES {
        let i = place - FLAG_AT;
        let at = FLAGS_AT + i / 4;
        return put_word(
            board,
            at,
            with_flag((i % 4) as u32, value != 0, board.files[at]),
        );
    }
    bad(board)
}
