// The places that a slot in its line reads and stores, under its condition.
ghost use Rattle.std.specs.Prelude.{◌≡◌};
ghost use Rattle.footprints.specs.Footprints as footprints;

use crate::footprint::{Footprint, flag_bits, registers};
use crate::slot_reads::slot_reads;
use crate::slot_stores::slot_stores;
use conditional::line_slot::{Fetched, LIVE, LOADED};
use instructions::fetch::HELD_WORDS;
use sets::place_set::words;
use slots::conditional_slot::{LAST_CONDITION, NEVER};
use slots::slot::Slot;

// The flag group that a condition reads.
#[tactic(auto, unfolding(crate::specs::Footprints::condition_bits))]
fn condition_bits(condition: u32) -> u64
    ensures { result ≡ footprints.condition_bits condition }
{
    match condition {
        1..=LAST_CONDITION => flag_bits(6, (condition - 1) / 6),
        _ => 0,
    }
}

// That group with other places.
#[tactic(auto, unfolding(crate::specs::Footprints::before))]
fn with_condition(condition: u32, others: Footprint) -> Footprint
    ensures { result ≡ footprints.before condition others }
{
    let group = words(0, 0, 0, condition_bits(condition));
    Footprint {
        set: group.join(others.set),
        words: others.words,
    }
}

// By what the slot holds. One whose condition fails reads the condition's flag group alone. Most slots have no condition and shift no
// loaded pair.
pub fn reads_in_line(fetched: &Fetched) -> Footprint
    ensures { result ≡ footprints.reads_in fetched.now.slot fetched.now.held }
{
    let condition = fetched.slot.condition;
    let load = fetched.slot.load;
    let v = fetched.held;
    if v[LIVE] == 1 {
        let reads = slot_reads(fetched.slot.slot, v[LOADED] == 1, v);
        if (condition == 0) & (load == NEVER) {
            return reads;
        }
        return with_condition(condition, with_condition(load, reads));
    }
    with_condition(condition, registers(words(0, 0, 0, 0)))
}

// From the words v that the slot holds.
#[tactic(auto, unfolding(crate::specs::Footprints::stores_in))]
pub fn stores_in_line(slot: Slot, v: [u32; HELD_WORDS]) -> Footprint
    ensures { result ≡ footprints.stores_in slot v }
{
    if v[LIVE] == 1 {
        return slot_stores(slot, v[LOADED] == 1, v);
    }
    registers(words(0, 0, 0, 0))
}
