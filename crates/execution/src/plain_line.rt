// The plain line: every slot is fetched on the machine before the line, and then all their stores apply.
ghost use Rattle.std.specs.Prelude.{◌≡◌};
ghost use Rattle.line.specs.Lines.{line_verdict};
ghost use Rattle.line.specs.Verdicts as verdicts;
ghost use Rattle.machine.specs.Machine.{EndsTrue};
ghost use Rattle.layout.specs.Layout.{machine_of, state_of};
ghost use Rattle.execution.specs.PlainLine.{line_of, refusal_of, line_end};

use crate::fetched_line::fetch_line;
use conditional::line_slot::{NOTHING_FETCHED, store_in_line};
use layout::table::STATE_WORDS;
use line::rules::Broken;
use slots::conditional_slot::SLOT_WORDS;

// The words of a line that passed the check, which no type says, as a line is handed on as its part of the image (01). Where the running
// state refuses it, nothing is stored.
pub fn run_line(
    line: &[u32],
    files: &mut [u32; STATE_WORDS],
    memory: &mut [u32],
) -> Result<(), Broken>
    requires { ((line_verdict line.now).code ≡ 0) × EndsTrue (state_of files.old) }
    ensures { (verdicts.verdict_of result ≡ refusal_of (line_of line.now) (machine_of files.old memory.old))
        × (machine_of files.new memory.new
        ≡ line_end (line_of line.now) (machine_of files.old memory.old)) }
{
    let mut fetched = [NOTHING_FETCHED; 4];
    fetch_line(line, &mut fetched, files, memory)?;
    let n = line.len() / SLOT_WORDS;
    for x in &fetched[..n] {
        store_in_line(x.slot.slot, x.held, files, memory);
    }
    Ok(())
}
