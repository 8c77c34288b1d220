// One line of the ordered run: its checks, and then as many of its steps as the limit allows.
ghost use Rattle.std.specs.Prelude.{◌≡◌};
ghost use Rattle.line.specs.Lines.{line_verdict};
ghost use Rattle.line.specs.Verdicts as verdicts;
ghost use Rattle.machine.specs.Machine.{EndsTrue};
ghost use Rattle.layout.specs.Layout.{machine_of, state_of};
ghost use Rattle.execution.specs.PlainLine.{line_of};
ghost use Rattle.stepping.specs.OrderedLine as ordered;

use conditional::line_slot::NOTHING_FETCHED;
use execution::fetched_line::fetch_line;
use layout::table::STATE_WORDS;
use line::rules::{Broken, Rule};
use orders::order::admissible;
use slots::conditional_slot::SLOT_WORDS;
use steps::perform::perform;

// The words of a line that passed the check, with its order; where it is refused, no step is made. left is what the limit
// leaves. What is held for the checks does not reach the steps: each fetch is made in its step.
pub fn ordered_line(
    line: &[u32],
    order: &[u8],
    left: u64,
    files: &mut [u32; STATE_WORDS],
    memory: &mut [u32],
) -> Result<(), Broken>
    requires { ((line_verdict line.now).code ≡ 0) × EndsTrue (state_of files.old) }
    ensures { (verdicts.verdict_of result ≡ ordered.ordered_refusal (line_of line.now) (machine_of files.old
        memory.old) order.now) × (machine_of files.new memory.new
        ≡ ordered.ordered_end (line_of line.now) left (machine_of files.old memory.old)
        order.now) }
{
    let n = line.len() / SLOT_WORDS;
    let mut fetched = [NOTHING_FETCHED; 4];
    fetch_line(line, &mut fetched, files, memory)?;
    if !admissible(order, &fetched[..n]) {
        return Err(Broken {
            rule: Rule::Order,
            slot: 0,
        });
    }
    // Not fetched.map(|x| x.slot), which takes the whole array and costs an ordered line of one slot 8 % more instructions.
    let slots = [
        fetched[0].slot,
        fetched[1].slot,
        fetched[2].slot,
        fetched[3].slot,
    ];
    let steps = (2 * n).min(order.len());
    let made = left.min(steps as u64) as usize;
    perform(&order[..made], &slots[..n], files, memory);
    Ok(())
}
