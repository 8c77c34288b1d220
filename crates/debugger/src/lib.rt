// What the users' C debugger links: the check call over the bytes of an image, and the check, the condition and the runs over
// flat words.
#![tactic(auto)]

pub mod flat_report;

ghost use Rattle.std.specs.Prelude.{◌≡◌};
ghost use Rattle.bytecheck.specs.ByteCheck.{check_of_bytes};
ghost use Rattle.debugger.specs.FlatRuns as flats;

use bits::flags::bit;
use bytecheck::byte_image::check_bytes;
use flat_report::{ANSWER_WORDS, REPORT_WORDS, write_answer, write_report};
use image::check::check;
use layout::table::{FLAGS_AT, STATE_WORDS};
use machine::condition::holds_in;
use ordered::run::run_ordered_files;
use runs::run::run_files;
use states::words::{read_words, write_words};

// The answer to a state or report of a wrong length. It is no code of 01, and nothing has been changed. A number, as C gets
// it.
pub const BAD_BUFFER: u32 = 255;

// 01's code for a condition number above 11, likewise.
pub const BAD_CONDITION: u32 = 12;

// Checking is exported to the users' C debugger: image bytes in, code out; over 65,536 bytes is 1, else a broken word 2.
#[unsafe(no_mangle)]
pub extern "C" fn ts201_check(image: &[u8]) -> u32
    ensures { result ≡ check_of_bytes image.now }
{
    check_bytes(image)
}

// The check call over an image's words: code, line and slot into the report.
#[unsafe(no_mangle)]
pub extern "C" fn ts201_check_words(image: &[u32], report: &mut [u32]) -> u32
    ensures { flats.checked result report.new ≡ flats.flat_check image.now report.old }
{
    if report.len() != ANSWER_WORDS {
        return BAD_BUFFER;
    }
    let answer = check(image);
    write_answer(answer, report);
    answer.code
}

// The condition call: 1 for yes, 0 for no. One word of the state is read, and none is copied.
#[tactic(auto, using(crate::proofs::FlatLaws::bad_condition))]
#[unsafe(no_mangle)]
pub extern "C" fn ts201_condition(number: u32, state: &[u32]) -> u32
    ensures { result ≡ flats.flat_condition number state.now }
{
    if state.len() != STATE_WORDS {
        return BAD_BUFFER;
    }
    if 11 < number {
        return BAD_CONDITION;
    }
    let group = state[FLAGS_AT + 6 + (number / 6) as usize];
    bit(holds_in(number, group))
}

// Whether a caller's buffers have the lengths of a state and a report.
fn fit(state: &[u32], report: &[u32]) -> bool
    ensures { result ≡ flats.fit state.now report.now }
{
    (state.len() == STATE_WORDS) & (report.len() == REPORT_WORDS)
}

// The plain run: state and memory are changed in place, and the report is written.
#[unsafe(no_mangle)]
pub extern "C" fn ts201_run(
    image: &[u32],
    state: &mut [u32],
    memory: &mut [u32],
    report: &mut [u32],
) -> u32
    ensures { flats.flat result state.new memory.new report.new
        ≡ flats.flat_run image.now state.old memory.old report.old }
{
    if !fit(state, report) {
        return BAD_BUFFER;
    }
    let mut files = [0u32; STATE_WORDS];
    read_words(state, &mut files);
    let result = run_files(image, &mut files, memory);
    write_words(&files, state);
    write_report(result, report);
    result.code
}

// The ordered run, likewise. What both do around their run would, as a function of the run, need a clause longer than either.
#[unsafe(no_mangle)]
pub extern "C" fn ts201_run_ordered(
    image: &[u32],
    orders: &[u8],
    limit: u64,
    state: &mut [u32],
    memory: &mut [u32],
    report: &mut [u32],
) -> u32
    ensures { flats.flat result state.new memory.new report.new
        ≡ flats.flat_ordered image.now orders.now limit state.old
        memory.old report.old }
{
    if !fit(state, report) {
        return BAD_BUFFER;
    }
    let mut files = [0u32; STATE_WORDS];
    read_words(state, &mut files);
    let result = run_ordered_files(image, orders, limit, &mut files, memory);
    write_words(&files, state);
    write_report(result, report);
    result.code
}
