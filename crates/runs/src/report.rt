// What a run reports.
ghost use Rattle.std.specs.Prelude.{◌≡◌};
ghost use Rattle.runs.specs.Plain as plain;

use image::check::{MAX_WORDS, check};
use machine::state::State;

// 01's code, line and slot, 0 where nothing is refused; the lines done and the steps made. Numbers and no enum, because C gets them.
#[derive(Clone, Copy)]
pub struct Report {
    pub code: u32,
    pub line: u32,
    pub slot: u32,
    pub lines: u32,
    pub steps: u64,
}

// The report, and the state that the run leaves.
#[derive(Clone, Copy)]
pub struct Ran {
    pub report: Report,
    pub state: State,
}

// The report of a run that stops: code, line and slot; the lines done and the steps made.
pub fn stopped(code: u32, line: u32, slot: u32, lines: u32, steps: u64) -> Report
    ensures { result ≡ plain.report code line slot lines steps }
{
    Report {
        code,
        line,
        slot,
        lines,
        steps,
    }
}

// What both runs test before their lines: memory's length, and all that the check call tests.
pub fn before_lines(image: &[u32], size: usize) -> Result<(), Report>
    ensures { result ≡ plain.accepted (plain.before_lines image.now size) }
{
    if MAX_WORDS < size {
        return Err(stopped(1, 0, 0, 0, 0));
    }
    let answer = check(image);
    if answer.code != 0 {
        return Err(stopped(answer.code, answer.line, answer.slot, 0, 0));
    }
    Ok(())
}
