// The registers that a slot stores.
ghost use Rattle.std.specs.Prelude.{◌≡◌};
ghost use Rattle.sets.specs.StoredSets as sets;

use crate::place_set::{PlaceSet, four_bits, side_bits, words};
use bits::select::select;
use slots::ops::{despread_words, is_store, keeps_index, old_words};
use slots::slot::Slot;

// The first bits of THR, base and length registers and data alignment buffers in their word.
pub const THR_BIT: u32 = 0;

pub const BASE_BIT: u32 = 8;

pub const LENGTH_BIT: u32 = 16;

pub const DAB_BIT: u32 = 32;

// twice: the slot stores a register twice, which only an access does, where it loads the index that it updates.
// No Option: the set is there in both cases.
#[derive(Clone, Copy)]
pub struct Stored {
    pub set: PlaceSet,
    pub twice: bool,
}

fn once(set: PlaceSet) -> Stored
    ensures { result ≡ sets.once set }
{
    Stored { set, twice: false }
}

// count registers of R, or of TR, of a block.
pub fn stored_r(block: u32, target: u32, count: u32) -> PlaceSet
    ensures { result ≡ sets.stored_r block target count }
{
    words(side_bits(block, target, count), 0, 0, 0)
}

pub fn stored_tr(block: u32, target: u32, count: u32) -> PlaceSet
    ensures { result ≡ sets.stored_tr block target count }
{
    words(0, side_bits(block, target, count), 0, 0)
}

// loaded: the line loads the THR pair that a DESPREAD shifts, which then stores no THR.
#[tactic(auto, unfolding(crate::specs::StoredSets::stored_despread))]
pub fn stored_despread(
    loaded: bool,
    block: u32,
    op: u32,
    target: u32,
    pair: u32,
    old: u32,
) -> PlaceSet
    ensures { result ≡ sets.stored_despread loaded block op target pair old }
{
    words(
        side_bits(block, old, old_words(op)),
        side_bits(block, target, despread_words(op)),
        0,
        four_bits(THR_BIT, block, pair, select(loaded, 0, 2)),
    )
}

#[tactic(auto, unfolding(crate::specs::StoredSets::stored_transfer))]
pub fn stored_transfer(block: u32, op: u32, target: u32) -> PlaceSet
    ensures { result ≡ sets.stored_transfer block op target }
{
    words(
        side_bits(block, target, select(op == 3, 1, 0)),
        side_bits(block, target, select(op == 1, 1, 0)),
        0,
        four_bits(THR_BIT, block, target, select(op == 2, 2, 0)),
    )
}

// Register i of an IALU, which is no place where i is 31; none where it is kept.
#[tactic(auto, unfolding(crate::specs::StoredSets::index_bits))]
pub fn index_bits(ialu: u32, i: u32, kept: bool) -> u64
    ensures { result ≡ sets.index_bits ialu i kept }
{
    side_bits(ialu, i, select(kept | (i == 31), 0, 1))
}

pub fn stored_arith(ialu: u32, target: u32) -> PlaceSet
    ensures { result ≡ sets.stored_arith ialu target }
{
    words(0, 0, index_bits(ialu, target, false), 0)
}

#[tactic(auto, unfolding(crate::specs::StoredSets::stored_buffer))]
pub fn stored_buffer(ialu: u32, op: u32, target: u32) -> PlaceSet
    ensures { result ≡ sets.stored_buffer ialu op target }
{
    words(
        0,
        0,
        0,
        four_bits(select(op == 15, BASE_BIT, LENGTH_BIT), ialu, target, 1),
    )
}

// The registers that an access loads, of R or of J and K, and the index that it updates.
#[tactic(auto, unfolding(crate::specs::StoredSets::access_stores))]
pub fn stored_access(ialu: u32, op: u32, width: u32, file: u32, number: u32, first: u32) -> Stored
    ensures { result ≡ sets.access_stores ialu op width file number first }
{
    let load = side_bits(file, number, select(is_store(op), 0, width));
    let index = index_bits(ialu, first, keeps_index(op));
    let in_r = select(file < 2, load, 0);
    let in_ialu = select(file < 2, 0, load);
    Stored {
        set: words(in_r, 0, in_ialu | index, 0),
        twice: (in_ialu & index) != 0,
    }
}

// The data alignment buffer of a block.
pub fn dab_bits(block: u32) -> u64
    ensures { result ≡ sets.dab_bits block }
{
    four_bits(DAB_BIT, block, 0, 4)
}

// Four registers of R, the buffer of their block and the index.
#[tactic(auto, unfolding(crate::specs::StoredSets::stored_dab_load))]
pub fn stored_dab_load(ialu: u32, block: u32, target: u32, first: u32) -> PlaceSet
    ensures { result ≡ sets.stored_dab_load ialu block target first }
{
    words(
        side_bits(block, target, 4),
        0,
        index_bits(ialu, first, false),
        dab_bits(block),
    )
}

#[tactic(auto, unfolding(crate::specs::StoredSets::stored_set, crate::specs::StoredSets::access_stores))]
pub fn registers_stored(loaded: bool, slot: Slot) -> Stored
    ensures { result ≡ sets.registers_stored loaded slot }
{
    match slot {
        Slot::Alu(block, _, target, _, _) => once(stored_r(block, target, 1)),
        Slot::Shifter(block, op, target, _, _) => {
            once(stored_r(block, target, select(op == 7, 0, 1)))
        }
        Slot::Trellis(block, _, target, _, _, _) => once(stored_tr(block, target, 2)),
        Slot::Tmax(block, _, target, _, _) => once(stored_r(block, target, 1)),
        Slot::Despread(block, op, target, _, pair, old) => {
            once(stored_despread(loaded, block, op, target, pair, old))
        }
        Slot::Transfer(block, op, target, _) => once(stored_transfer(block, op, target)),
        Slot::Arith(ialu, _, target, _, _, _) => once(stored_arith(ialu, target)),
        Slot::Buffer(ialu, op, target, _) => once(stored_buffer(ialu, op, target)),
        Slot::Access(ialu, op, width, file, number, first, _, _) => {
            stored_access(ialu, op, width, file, number, first)
        }
        Slot::DabLoad(ialu, block, target, first, _) => {
            once(stored_dab_load(ialu, block, target, first))
        }
    }
}
