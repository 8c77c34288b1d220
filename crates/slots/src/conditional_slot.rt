// A slot of a line: the fields of its family, and its condition.
ghost use Rattle.std.specs.Prelude.{◌≡◌};
ghost use Rattle.slots.specs.Conditionals as spec;
ghost use Rattle.slots.specs.Slots as slots;

use crate::slot::{FIELD_WORDS, Slot, SlotRefusal, read_fields};

// The words of a slot: unit, op, target, first, second, imm, condition.
pub const SLOT_WORDS: usize = 7;

// The highest condition of a slot: 0 is always, and then come the numbers 0 to 11, each plus 1.
pub const LAST_CONDITION: u32 = 12;

// The modifier of a load through a data alignment buffer.
pub const QUAD: u32 = 4;

// No slot's condition: that of a load which the line does not have.
// No Option: line_slot, load_condition and the law never_on speak of the number, and it is tested as every condition is.
pub const NEVER: u32 = 13;

#[derive(Clone, Copy)]
pub struct Conditional {
    pub slot: Slot,
    pub condition: u32,
}

// Only a load through a data alignment buffer asks for a modifier.
pub fn modifier_fits(slot: Slot) -> bool
    ensures { result ≡ spec.modifier_fits slot }
{
    match slot {
        Slot::DabLoad(_, _, _, _, imm) => imm == QUAD,
        _ => true,
    }
}

// The slot that seven words are; words of any other number are refused. The fields come first, then the condition.
#[tactic(auto, using(crate::proofs::ConditionalReads::slot_read_code_lem), unfolding(crate::specs::Conditionals::read_slot))]
pub fn read_slot(words: &[u32]) -> Result<Conditional, SlotRefusal>
    ensures { (result ≡ spec.read_slot words.now) × (slots.read_code result ≡ spec.slot_code words.now) }
{
    if words.len() != SLOT_WORDS {
        return Err(SlotRefusal::BadFields);
    }
    let Ok(slot) = read_fields(&words[0..FIELD_WORDS]) else {
        return Err(SlotRefusal::BadFields);
    };
    let condition = words[FIELD_WORDS];
    if LAST_CONDITION < condition {
        return Err(SlotRefusal::BadCondition);
    }
    if !modifier_fits(slot) {
        return Err(SlotRefusal::BadModifier);
    }
    Ok(Conditional { slot, condition })
}

// A slot in its line. load: the condition of the slot that loads the THR pair which this one shifts.
#[derive(Clone, Copy)]
pub struct LineSlot {
    pub slot: Slot,
    pub condition: u32,
    pub load: u32,
}
