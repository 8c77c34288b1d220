// What a call answers, compared with the numbers of a record.
ghost use Rattle.std.specs.Prelude.{◌≡◌, ◌+◌, length};
ghost use Rattle.machine.specs.Machine.{machine};
ghost use Rattle.runs.specs.Plain.{ended};
ghost use Rattle.replay.specs.Compare.{difference_from};
ghost use Rattle.replay.specs.Outcome as spec;

use crate::compare::{Difference, differ, first_difference};
use image::check::Answer;
use layout::table::STATE_WORDS;
use runs::report::{Ran, Report};
use states::words::words_of;

// The numbers of a check call.
pub(crate) const CHECK_WORDS: usize = 3;

// The numbers of a run's report.
pub(crate) const REPORT_WORDS: usize = 5;

// Those of a run before its memory words.
pub(crate) const RUN_WORDS: usize = REPORT_WORDS + STATE_WORDS;

pub(crate) fn check_difference(expected: &[u32], answer: Answer) -> Result<(), Difference>
    ensures { result ≡ difference_from 0 expected.now (spec.answer_numbers answer) }
{
    let found = [answer.code, answer.line, answer.slot];
    first_difference(0, expected, &found)
}

// The file has one word for steps, and the call answers 64 bits: they are compared whole.
fn report_difference(expected: &[u32], report: Report) -> Result<(), Difference>
    requires { length expected.now ≡ 5 }
    ensures { result ≡ difference_from 0 expected.now (spec.report_numbers report) }
{
    let found = [report.code, report.line, report.slot, report.lines];
    first_difference(0, &expected[0..4], &found)?;
    let steps = expected[4];
    if u64::from(steps) == report.steps {
        return Ok(());
    }
    differ(4, steps, report.steps)
}

pub(crate) fn run_difference(expected: &[u32], ran: Ran, memory: &[u32]) -> Result<(), Difference>
    requires { length expected.now ≡ spec.run_numbers + length memory.now }
    ensures { result ≡ difference_from 0 expected.now (spec.end_numbers (ended ran.report
        (machine ran.state memory.now))) }
{
    let report = ran.report;
    report_difference(&expected[0..REPORT_WORDS], report)?;
    let found = words_of(ran.state);
    first_difference(REPORT_WORDS, &expected[REPORT_WORDS..RUN_WORDS], &found)?;
    first_difference(RUN_WORDS, &expected[RUN_WORDS..], memory)
}
