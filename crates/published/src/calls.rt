// The calls on a board, as C makes them.
ghost use Rattle.std.specs.Prelude.{◌≡◌, slice_index};
ghost use Rattle.published.specs.Calls as spec;

use crate::board::{Board, bad};
use debugger::flat_report::ANSWER_WORDS;
use debugger::{ts201_check_words, ts201_condition, ts201_run, ts201_run_ordered};
use text::numbers::words_in;
use text::parts::{after, before};
use text::tables::entry_of;

// A call that a row may name.
#[derive(Clone, Copy)]
enum Call {
    Condition,
    Check,
    Run,
    Ordered,
}

fn call_named(name: &[u8]) -> Option<Call>
    ensures { result ≡ spec.call_named name.now }
{
    Some(match entry_of(b"cond    check   run     order   ", name)? {
        0 => Call::Condition,
        1 => Call::Check,
        2 => Call::Run,
        _ => Call::Ordered,
    })
}

// Whether a call takes what it is given, and this image: a condition has one number and no image, check and run have no numbers,
// an order at most eight steps, which are bytes.
fn takes(call: Call, given: &[u32], image: &[u32]) -> bool
    ensures { result ≡ spec.takes call given.now image.now }
{
    match call {
        Call::Condition => (given.len() == 1) & image.is_empty(),
        Call::Check | Call::Run => given.is_empty(),
        Call::Ordered => given.len() <= 8 && given.iter().all(|step| *step < 256),
    }
}

// 0 where none is given.
fn number_given(given: &[u32]) -> u32
    ensures { result ≡ slice_index given.now 0 }
{
    given.get(0).copied().unwrap_or(0)
}

// The answer of the condition with the number given.
fn asked(given: &[u32], board: Board) -> Board
    ensures { result ≡ spec.asked given.now board }
{
    let files = board.files;
    let mut next = board;
    next.answer = ts201_condition(number_given(given), &files);
    next
}

// The report of a check is the first three words of a run's.
fn checked(image: &[u32], board: Board) -> Board
    ensures { result ≡ spec.checked image.now board }
{
    let mut told = [0u32; ANSWER_WORDS];
    ts201_check_words(image, &mut told);
    let mut next = board;
    next.report = [told[0], told[1], told[2], 0, 0, 0];
    next
}

fn ran(image: &[u32], board: Board) -> Board
    ensures { result ≡ spec.ran image.now board }
{
    let mut files = board.files;
    let mut memory = board.memory;
    let mut report = board.report;
    ts201_run(image, &mut files, &mut memory, &mut report);
    let mut next = board;
    next.files = files;
    next.memory = memory;
    next.report = report;
    next
}

// A step of an order of one line; 255 behind the steps that are given.
fn step_at(given: &[u32], i: usize) -> u8
    ensures { result ≡ spec.step_at given.now i }
{
    if i < given.len() {
        return (given[i] % 256) as u8;
    }
    255
}

// Step by step, since the clause of array::from_fn left the proof open.
fn order_of(given: &[u32]) -> [u8; 8]
    ensures { result ≡ spec.order_of given.now }
{
    [
        step_at(given, 0),
        step_at(given, 1),
        step_at(given, 2),
        step_at(given, 3),
        step_at(given, 4),
        step_at(given, 5),
        step_at(given, 6),
        step_at(given, 7),
    ]
}

// The limit is more than the steps of any one line.
fn ran_ordered(image: &[u32], order: [u8; 8], board: Board) -> Board
    ensures { result ≡ spec.ran_ordered image.now order board }
{
    let orders = order;
    let mut files = board.files;
    let mut memory = board.memory;
    let mut report = board.report;
    ts201_run_ordered(image, &orders, 9, &mut files, &mut memory, &mut report);
    let mut next = board;
    next.files = files;
    next.memory = memory;
    next.report = report;
    next
}

fn called(call: Call, given: &[u32], image: &[u32], board: Board) -> Board
    ensures { result ≡ spec.called call given.now image.now board }
{
    match call {
        Call::Condition => asked(given, board),
        Call::Check => checked(image, board),
        Call::Run => ran(image, board),
        Call::Ordered => ran_ordered(image, order_of(given), board),
    }
}

// The board after the call that a row names, on its image.
pub(crate) fn perform(what: &[u8], text: &[u8], board: Board) -> Board
    ensures { result ≡ spec.performed what.now text.now board }
{
    let Some(call) = call_named(before(what, b' ')) else {
        return bad(board);
    };
    let Ok(given) = words_in(after(what, b' ')) else {
        return bad(board);
    };
    let Ok(image) = words_in(text) else {
        return bad(board);
    };
    if takes(call, &given, &image) {
        return called(call, &given, &image, board);
    }
    bad(board)
}
