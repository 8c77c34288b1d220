// Reports as flat words.
ghost use Rattle.std.specs.Prelude.{◌≡◌, length};
ghost use Rattle.debugger.specs.FlatRuns as flats;

use image::check::Answer;
use runs::report::Report;

// Code, line, slot.
pub const ANSWER_WORDS: usize = 3;

// Code, line, slot, lines done, steps made: their low word, then their high one.
pub const REPORT_WORDS: usize = 6;

pub(crate) fn write_answer(answer: Answer, words: &mut [u32])
    requires { length words.old ≡ flats.answer_words }
    ensures { words.new ≡ flats.words_of_answer answer }
{
    words.copy_from_slice(&[answer.code, answer.line, answer.slot]);
}

pub(crate) fn write_report(report: Report, words: &mut [u32])
    requires { length words.old ≡ flats.report_words }
    ensures { words.new ≡ flats.words_of_report report }
{
    let low = report.steps % 0x1_0000_0000;
    let high = report.steps / 0x1_0000_0000;
    words.copy_from_slice(&[
        report.code,
        report.line,
        report.slot,
        report.lines,
        low as u32,
        high as u32,
    ]);
}
