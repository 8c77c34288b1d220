// The steps of a line, one by one, in place.
ghost use Rattle.std.specs.Prelude.{◌≡◌, ◌≤◌, length};
ghost use Rattle.machine.specs.Machine.{EndsTrue};
ghost use Rattle.layout.specs.Layout.{machine_of, state_of};
ghost use Rattle.steps.specs.Steps as steps;
ghost use Rattle.steps.specs.SlotSteps as slotted;

use conditional::line_slot::{fetch_in_line, store_in_line};
use instructions::fetch::HELD_WORDS;
use layout::table::STATE_WORDS;
use slots::conditional_slot::LineSlot;

// Any sequence of bytes, on the slots of a line: 2s is the fetch of slot s, 2s + 1 its store. One that names no slot of the line
// does nothing.
pub fn perform(order: &[u8], slots: &[LineSlot], files: &mut [u32; STATE_WORDS], memory: &mut [u32])
    requires { (length slots.now ≤ 4) × EndsTrue (state_of files.old) }
    ensures { machine_of files.new memory.new ≡ steps.steps (slotted.acts_in slots.now)
        order.now (machine_of files.old memory.old) }
{
    let mut held: [Option<[u32; HELD_WORDS]>; 4] = [None; 4];
    for byte in order {
        let s = (*byte / 2) as usize;
        if s < slots.len() {
            let slot = &slots[s];
            if *byte % 2 == 0 {
                held[s] = Some(fetch_in_line(slot, files, memory));
            } else if let Some(v) = held[s] {
                store_in_line(slot.slot, v, files, memory);
            }
        }
    }
}
