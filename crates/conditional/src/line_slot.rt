// Fetch and store of a slot in its line, under its condition.
ghost use Rattle.std.specs.Prelude.{◌≡◌, true, List, ℕ};
ghost use Rattle.machine.specs.Machine.{EndsTrue};
ghost use Rattle.machine.specs.Fetches.{values, puts};
ghost use Rattle.machine.specs.SlotConditions.{condition_on};
ghost use Rattle.layout.specs.Layout.{machine_of, state_of};
ghost use Rattle.instructions.specs.Held as held;
ghost use Rattle.conditional.specs.LineSlots as spec;

use bits::select::select;
use instructions::fetch::{HELD_WORDS, fetch_slot};
use instructions::store::store_slot;
use layout::cell::read;
use layout::table::{RegisterFile, STATE_WORDS};
use machine::condition::holds_in;
use slots::conditional_slot::{LAST_CONDITION, LineSlot};
use slots::slot::Slot;

// The words held of every slot, behind those of its family: 1 where its condition holds, and 1 where the THR pair that it shifts
// is loaded. Words and no Option, since `fetch_in` and `store_in` (specs/LineSlots.antt) speak of the words that a slot holds.
pub const LIVE: usize = 14;

pub const LOADED: usize = 15;

// A slot of a line with what it fetched.
#[derive(Clone, Copy)]
pub struct Fetched {
    pub slot: LineSlot,
    pub held: [u32; HELD_WORDS],
}

// What stands in an array before the slots do.
pub const NOTHING_FETCHED: Fetched = Fetched {
    slot: LineSlot {
        slot: Slot::Buffer(0, 0, 0, 0),
        condition: 0,
        load: 0,
    },
    held: [0; HELD_WORDS],
};

// Whether a slot's condition holds: most have none.
#[tactic(auto, unfolding(machine::specs::SlotConditions::condition_on, machine::specs::SlotConditions::condition_met))]
fn holds(condition: u32, files: &[u32; STATE_WORDS]) -> bool
    ensures { (mem : List ℕ) → result ≡ condition_on condition (machine_of files.now mem) }
{
    match condition {
        0 => true,
        1..=LAST_CONDITION => {
            let number = condition - 1;
            let group = 6 + (number / 6) as usize;
            holds_in(number, read(files, RegisterFile::Flags, group))
        }
        _ => false,
    }
}

// What a slot holds after its fetch.
pub fn fetch_in_line<'a, 'b, 'c>(
    slot: &'a LineSlot,
    files: &'b [u32; STATE_WORDS],
    memory: &'c [u32],
) -> [u32; HELD_WORDS]
    requires { EndsTrue (state_of files.now) }
    ensures { result ≡ values (spec.fetch_in slot.now) (machine_of files.now memory.now) }
{
    if !holds(slot.condition, files) {
        return [0; HELD_WORDS];
    }
    let loaded = holds(slot.load, files);
    let mut v = fetch_slot(slot.slot, loaded, files, memory);
    v[LIVE] = 1;
    v[LOADED] = select(loaded, 1, 0);
    v
}

// Made from the words v that the slot holds.
#[tactic(auto, using(crate::proofs::LineSlots::live_stores, crate::proofs::LineSlots::dead_stores))]
pub fn store_in_line(
    slot: Slot,
    v: [u32; HELD_WORDS],
    files: &mut [u32; STATE_WORDS],
    memory: &mut [u32],
)
    requires { held.end_held slot v ≡ true }
    ensures { machine_of files.new memory.new
        ≡ puts (spec.store_in slot v) (machine_of files.old memory.old) }
{
    if v[LIVE] == 1 {
        store_slot(slot, v[LOADED] == 1, v, files, memory);
    }
}
