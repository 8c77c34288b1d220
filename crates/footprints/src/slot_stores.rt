// The places that a slot stores.
ghost use Rattle.std.specs.Prelude.{◌≡◌};
ghost use Rattle.footprints.specs.Footprints as footprints;

use crate::footprint::{Footprint, flag_bits, registers};
use bits::select::select;
use instructions::fetch::HELD_WORDS;
use instructions::stored_words::words_stored;
use sets::place_set::{PlaceSet, words};
use sets::stored::{
    stored_access, stored_arith, stored_buffer, stored_dab_load, stored_despread, stored_r,
    stored_tr, stored_transfer,
};
use slots::slot::Slot;

// The registers with the flag group of a unit.
fn with_flags(unit: u32, side: u32, set: PlaceSet) -> Footprint
    ensures { result ≡ footprints.registers (footprints.with_flags (footprints.flag_bits unit side) set) }
{
    registers(set.join(words(0, 0, 0, flag_bits(unit, side))))
}

// loaded: the line loads the THR pair that the slot shifts. Registers and flag group by one branch on the family.
pub fn slot_stores(slot: Slot, loaded: bool, v: [u32; HELD_WORDS]) -> Footprint
    ensures { result ≡ footprints.slot_stores loaded slot v }
{
    match slot {
        Slot::Alu(block, _, target, ..) => with_flags(0, block, stored_r(block, target, 1)),
        Slot::Shifter(block, op, target, ..) => {
            with_flags(2, block, stored_r(block, target, select(op == 7, 0, 1)))
        }
        Slot::Trellis(block, _, target, ..) => { with_flags(4, block, stored_tr(block, target, 2)) }
        Slot::Tmax(block, _, target, ..) => with_flags(4, block, stored_r(block, target, 1)),
        Slot::Despread(block, op, target, _, pair, old) => with_flags(
            4,
            block,
            stored_despread(loaded, block, op, target, pair, old),
        ),
        Slot::Transfer(block, op, target, _) => registers(stored_transfer(block, op, target)),
        Slot::Arith(ialu, _, target, ..) => with_flags(6, ialu, stored_arith(ialu, target)),
        Slot::Buffer(ialu, op, target, _) => registers(stored_buffer(ialu, op, target)),
        Slot::Access(ialu, op, width, file, number, first, ..) => {
            let stored = stored_access(ialu, op, width, file, number, first);
            let set = stored.set;
            let words = words_stored(slot, v);
            Footprint { set, words }
        }
        Slot::DabLoad(ialu, block, target, first, _) => {
            registers(stored_dab_load(ialu, block, target, first))
        }
    }
}
