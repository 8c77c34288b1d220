// The plain run.
ghost use Rattle.std.specs.Prelude.{◌≡◌};
ghost use Rattle.image.specs.Check.{lines_of, check_of};
ghost use Rattle.machine.specs.Machine.{machine, EndsTrue};
ghost use Rattle.layout.specs.Layout.{machine_of, state_of};
ghost use Rattle.runs.specs.Plain as plain;

use crate::report::{Ran, Report, before_lines, stopped};
use execution::plain_line::run_line;
use image::directory::line_count;
use image::lines::line_at;
use layout::ends::put_right;
use layout::table::STATE_WORDS;
use machine::state::State;
use slots::conditional_slot::SLOT_WORDS;
use states::words::{gathered, words_of};

// Line by line, on an image that passed the check.
fn run_lines(image: &[u32], files: &mut [u32; STATE_WORDS], memory: &mut [u32]) -> Report
    requires { ((check_of image.now).code ≡ 0) × EndsTrue (state_of files.old) }
    ensures { plain.ended result (machine_of files.new memory.new)
        ≡ plain.plain_from 0 0 (lines_of image.now) (machine_of files.old memory.old) }
{
    let n = line_count(image);
    let mut steps: u64 = 0;
    for lines in 0..n {
        let line = line_at(image, lines);
        if let Err(broken) = run_line(line, files, memory) {
            return stopped(broken.rule.code(), lines, broken.slot, lines, steps);
        }
        steps += 2 * (line.len() / SLOT_WORDS) as u64;
    }
    stopped(0, 0, 0, n, steps)
}

// On words whose ends are right.
fn run_on(image: &[u32], files: &mut [u32; STATE_WORDS], memory: &mut [u32]) -> Report
    requires { EndsTrue (state_of files.old) }
    ensures { plain.ended result (machine_of files.new memory.new)
        ≡ plain.plain_run_on image.now (machine_of files.old memory.old) }
{
    if let Err(report) = before_lines(image, memory.len()) {
        return report;
    }
    run_lines(image, files, memory)
}

// The plain run of an image on the words of a state, whose ends are put right before anything else.
pub fn run_files(image: &[u32], files: &mut [u32; STATE_WORDS], memory: &mut [u32]) -> Report
    ensures { plain.ended result (machine_of files.new memory.new)
        ≡ plain.plain_run image.now (machine_of files.old memory.old) }
{
    put_right(files);
    run_on(image, files, memory)
}

// The plain run of an image. The state is laid out in one array once, and gathered at the end.
pub fn run(image: &[u32], state: State, memory: &mut [u32]) -> Ran
    ensures { plain.ended result.report (machine result.state memory.new) ≡ plain.plain_run
        image.now (machine state memory.old) }
{
    let mut files = words_of(state);
    let report = run_files(image, &mut files, memory);
    let after = gathered(&files);
    Ran {
        report,
        state: after,
    }
}
