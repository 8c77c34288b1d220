// The plain run of an image that comes as bytes.
ghost use Rattle.std.specs.Prelude.{◌≡◌};
ghost use Rattle.linerun.specs.BytesRun as spec;

use image::bytes::{bytes_refusal, load_words};
use image::check::MAX_WORDS;
use machine::state::zero_state;
use runs::report::{Ran, Report};
use runs::run::run;

pub(crate) fn run_bytes(bytes: &[u8]) -> Ran
    ensures { result ≡ spec.ran (spec.bytes_run bytes.now) }
{
    if let Err(refusal) = bytes_refusal(bytes) {
        return Ran {
            report: Report {
                code: refusal.code(),
                line: 0,
                slot: 0,
                lines: 0,
                steps: 0,
            },
            state: zero_state(),
        };
    }
    let n = bytes.len() / 4;
    let mut words = [0u32; MAX_WORDS];
    load_words(bytes, &mut words);
    let mut memory = [0u32; 64];
    run(&words[..n], zero_state(), &mut memory)
}

// The numbers that are printed, four a line.
pub(crate) fn numbers(ran: Ran) -> [u32; 8]
    ensures { result ≡ spec.numbers_of ran }
{
    let report = ran.report;
    let state = ran.state;
    let j = state.j;
    [
        report.code,
        report.lines,
        report.line,
        report.slot,
        j[0],
        j[1],
        j[2],
        j[3],
    ]
}
