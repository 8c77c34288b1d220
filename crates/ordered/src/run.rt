// The ordered run.
ghost use Rattle.std.specs.Prelude.{◌≡◌, ◌*◌, length};
ghost use Rattle.image.specs.Directory.{line_count};
ghost use Rattle.image.specs.Check.{lines_of, check_of};
ghost use Rattle.machine.specs.Machine.{machine, EndsTrue};
ghost use Rattle.layout.specs.Layout.{machine_of, state_of};
ghost use Rattle.runs.specs.Plain.{ended};
ghost use Rattle.ordered.specs.Ordered as ordered;

use image::directory::line_count;
use image::lines::line_at;
use layout::ends::put_right;
use layout::table::STATE_WORDS;
use machine::state::State;
use runs::report::{Ran, Report, before_lines, stopped};
use slots::conditional_slot::SLOT_WORDS;
use states::words::{gathered, words_of};
use stepping::line_steps::ordered_line;

// The bytes of a line's order.
pub const ORDER_BYTES: usize = 8;

// Line by line, on an image that passed the check and orders of eight bytes a line.
fn ordered_lines(
    image: &[u32],
    orders: &[u8],
    limit: u64,
    files: &mut [u32; STATE_WORDS],
    memory: &mut [u32],
) -> Report
    requires { ((check_of image.now).code ≡ 0)
        × (length orders.now ≡ ordered.order_bytes * line_count image.now) × EndsTrue (state_of files.old) }
    ensures { ended result (machine_of files.new memory.new)
        ≡ ordered.ordered_from limit 0 0 (lines_of image.now) orders.now
        (machine_of files.old memory.old) }
{
    let n = line_count(image);
    let mut steps: u64 = 0;
    for lines in 0..n {
        if limit <= steps {
            return stopped(0, 0, 0, lines, steps);
        }
        let line = line_at(image, lines);
        // By the line's number, which `line_at` and the report take too.
        let first = ORDER_BYTES * lines as usize;
        let order = &orders[first..first + ORDER_BYTES];
        let left = limit - steps;
        if let Err(broken) = ordered_line(line, order, left, files, memory) {
            return stopped(broken.rule.code(), lines, broken.slot, lines, steps);
        }
        let all = 2 * (line.len() / SLOT_WORDS) as u64;
        if left < all {
            return stopped(0, 0, 0, lines, limit);
        }
        steps += all;
    }
    stopped(0, 0, 0, n, steps)
}

// On words whose ends are right.
fn run_ordered_on(
    image: &[u32],
    orders: &[u8],
    limit: u64,
    files: &mut [u32; STATE_WORDS],
    memory: &mut [u32],
) -> Report
    requires { EndsTrue (state_of files.old) }
    ensures { ended result (machine_of files.new memory.new) ≡ ordered.ordered_run_on
        image.now orders.now limit (machine_of files.old memory.old) }
{
    if let Err(report) = before_lines(image, memory.len()) {
        return report;
    }
    if orders.len() != ORDER_BYTES * line_count(image) as usize {
        return stopped(11, 0, 0, 0, 0);
    }
    ordered_lines(image, orders, limit, files, memory)
}

// The ordered run of an image on the words of a state, whose ends are put right before anything else: the steps of each line in
// the order that its eight bytes give, until limit steps are made.
pub fn run_ordered_files(
    image: &[u32],
    orders: &[u8],
    limit: u64,
    files: &mut [u32; STATE_WORDS],
    memory: &mut [u32],
) -> Report
    ensures { ended result (machine_of files.new memory.new) ≡ ordered.ordered_run
        image.now orders.now limit (machine_of files.old memory.old) }
{
    put_right(files);
    run_ordered_on(image, orders, limit, files, memory)
}

// The ordered run of an image. The state is laid out in one array once, and gathered at the end, as in `runs`: three calls around a run,
// which as a function of the run would need a clause longer than both.
pub fn run_ordered(
    image: &[u32],
    orders: &[u8],
    limit: u64,
    state: State,
    memory: &mut [u32],
) -> Ran
    ensures { ended result.report (machine result.state memory.new) ≡ ordered.ordered_run
        image.now orders.now limit (machine state memory.old) }
{
    let mut files = words_of(state);
    let report = run_ordered_files(image, orders, limit, &mut files, memory);
    let after = gathered(&files);
    Ran {
        report,
        state: after,
    }
}
