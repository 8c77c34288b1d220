// The slots of a line, each with what it fetches on the machine before the line, and the running state's refusals of them.
ghost use Rattle.std.specs.Prelude.{◌≡◌, ◌/◌, length, take, drop};
ghost use Rattle.slots.specs.Conditionals.{slot_words};
ghost use Rattle.line.specs.Lines.{line_verdict};
ghost use Rattle.line.specs.Verdicts as verdicts;
ghost use Rattle.machine.specs.Machine.{EndsTrue};
ghost use Rattle.layout.specs.Layout.{machine_of, state_of};
ghost use Rattle.refusals.specs.Refusals as refusals;
ghost use Rattle.execution.specs.PlainLine.{line_of, refusal_of};

use crate::thr_priority::load_condition;
use conditional::line_slot::{Fetched, fetch_in_line};
use known::slot::known_slot;
use layout::table::STATE_WORDS;
use line::rules::Broken;
use refusals::judged::{judge, none_judged, verdict_of};
use refusals::memory_use::use_of;
use slots::conditional_slot::{LineSlot, SLOT_WORDS};
use slots::slot::FIELD_WORDS;

// The words of a line that passed the check. fetched is lent and written in place, since copies would cost each line; places behind
// the line's slots stay as they are. Inlined, so that the array is filled where it stands.
#[inline(always)]
pub fn fetch_line(
    line: &[u32],
    fetched: &mut [Fetched; 4],
    files: &[u32; STATE_WORDS],
    memory: &[u32],
) -> Result<(), Broken>
    requires { ((line_verdict line.now).code ≡ 0) × EndsTrue (state_of files.now) }
    ensures { (verdicts.verdict_of result ≡ refusal_of (line_of line.now) (machine_of files.now memory.now))
        × (take (length line.now / slot_words) fetched.new
        ≡ refusals.fetch_line (line_of line.now) (machine_of files.now memory.now))
        × (drop (length line.now / slot_words) fetched.new
        ≡ drop (length line.now / slot_words) fetched.old) }
{
    let size = memory.len() as u64;
    let mut judged = none_judged();
    for (s, words) in line.chunks_exact(SLOT_WORDS).enumerate() {
        let slot = known_slot(words);
        let load = load_condition(line, slot);
        let x = &mut fetched[s];
        x.slot = LineSlot {
            slot,
            condition: words[FIELD_WORDS],
            load,
        };
        x.held = fetch_in_line(&x.slot, files, memory);
        judged = judge(judged, s as u32, use_of(size, slot, x.held));
    }
    verdict_of(judged)
}
