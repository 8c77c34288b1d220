// What rules 4 to 7 keep of a slot.
ghost use Rattle.std.specs.Prelude.{◌≡◌};
ghost use Rattle.line.specs.Pass as pass;
ghost use Rattle.line.specs.Rules as rules;

use bits::select::select;
use sets::stored::{Stored, registers_stored};
use slots::slot::Slot;

// counts has four counts, a byte each: positions, wide slots, slots for X, slots for Y.
// stored has the registers as if every THR pair were loaded: slots on different units never store a THR twice.
#[derive(Clone, Copy)]
pub struct Usage {
    pub unit: u32,
    pub counts: u32,
    pub stored: Stored,
}

const POSITION: u32 = 1;

const WIDE: u32 = 0x100;

const FOR_X: u32 = 0x1_0000;

// An immediate outside -128..127: as a word, from 128 up to, not including, 2^32 - 128.
#[tactic(auto, using(crate::proofs::Wide::wide_word))]
fn wide_immediate(second: u32, imm: u32) -> bool
    ensures { result ≡ rules.wide_immediate second imm }
{
    (second == 32) & (128 <= imm) & (imm < 4294967168)
}

// A slot for a block: Y's byte follows X's.
#[tactic(auto, using(crate::proofs::Counts::block_shift), unfolding(crate::specs::Pass::block_counts))]
fn block_counts(block: u32) -> u32
    ensures { result ≡ pass.block_counts block }
{
    POSITION + (FOR_X << (8 * (block % 2)))
}

// An IALU slot with a second operand.
#[tactic(auto, unfolding(crate::specs::Pass::ialu_counts))]
fn ialu_counts(second: u32, imm: u32) -> u32
    ensures { result ≡ pass.ialu_counts second imm }
{
    select(wide_immediate(second, imm), 2 * POSITION + WIDE, POSITION)
}

// An arm for each variant: where several share one, the check takes 15 instructions more a slot.
#[tactic(auto, unfolding(crate::specs::Pass::slot_counts))]
fn slot_counts(slot: Slot) -> u32
    ensures { result ≡ pass.slot_counts slot }
{
    match slot {
        Slot::Alu(block, ..) => block_counts(block),
        Slot::Shifter(block, ..) => block_counts(block),
        Slot::Trellis(block, ..) => block_counts(block),
        Slot::Tmax(block, ..) => block_counts(block),
        Slot::Despread(block, ..) => block_counts(block),
        Slot::Transfer(block, ..) => block_counts(block),
        Slot::Arith(.., second, imm) => ialu_counts(second, imm),
        Slot::Buffer(..) => POSITION,
        Slot::Access(.., second, imm) => ialu_counts(second, imm),
        Slot::DabLoad(.., imm) => ialu_counts(32, imm),
    }
}

pub(crate) fn usage_of(unit: u32, slot: Slot) -> Usage
    ensures { result ≡ pass.usage_of unit slot }
{
    Usage {
        unit,
        counts: slot_counts(slot),
        stored: registers_stored(true, slot),
    }
}
