// The places that a slot reads.
ghost use Rattle.std.specs.Prelude.{◌≡◌};
ghost use Rattle.footprints.specs.Footprints as footprints;

use crate::footprint::{Footprint, flag_bits, registers};
use bits::select::select;
use instructions::fetch::{HELD_WORDS, INDEX, LENGTH, MODIFIER};
use sets::place_set::{PlaceSet, four_bits, side_bits, words};
use sets::range::words_at;
use sets::stored::{BASE_BIT, LENGTH_BIT, THR_BIT, dab_bits, index_bits};
use slots::ops::{despread_words, is_circular, is_store};
use slots::slot::Slot;
use word::ialu::{address, quad_at};

// R first, and R second where it is used.
#[tactic(auto, unfolding(crate::specs::Footprints::reads_pair))]
fn reads_pair(block: u32, first: u32, second: u32, used: bool) -> PlaceSet
    ensures { result ≡ footprints.reads_pair block first second used }
{
    let second = side_bits(block, second, select(used, 1, 0));
    words(side_bits(block, first, 1) | second, 0, 0, 0)
}

#[tactic(auto, unfolding(crate::specs::Footprints::reads_trellis))]
fn reads_trellis(block: u32, first: u32, second: u32, quad: u32) -> PlaceSet
    ensures { result ≡ footprints.reads_trellis block first second quad }
{
    let pairs = side_bits(block, first, 2) | side_bits(block, second, 2);
    words(side_bits(block, quad, 4), pairs, 0, flag_bits(4, block))
}

#[tactic(auto, unfolding(crate::specs::Footprints::reads_tmax))]
fn reads_tmax(block: u32, first: u32, second: u32) -> PlaceSet
    ensures { result ≡ footprints.reads_tmax block first second }
{
    let both = side_bits(block, first, 1) | side_bits(block, second, 1);
    words(0, both, 0, flag_bits(4, block))
}

// The high register of the THR pair only where its shift is stored.
#[tactic(auto, unfolding(crate::specs::Footprints::reads_despread))]
fn reads_despread(block: u32, op: u32, target: u32, first: u32, pair: u32, loaded: bool) -> PlaceSet
    ensures { result ≡ footprints.reads_despread block op target first pair loaded }
{
    let thrs = four_bits(THR_BIT, block, pair, select(loaded, 1, 2));
    words(
        side_bits(block, first, 4),
        side_bits(block, target, despread_words(op)),
        0,
        thrs | flag_bits(4, block),
    )
}

// 1 and 2 read R first, 2 the next R too; 3 reads TR first.
#[tactic(auto, unfolding(crate::specs::Footprints::reads_transfer))]
fn reads_transfer(block: u32, op: u32, first: u32) -> PlaceSet
    ensures { result ≡ footprints.reads_transfer block op first }
{
    let n = select(op == 3, 0, select(op == 2, 2, 1));
    words(
        side_bits(block, first, n),
        side_bits(block, first, select(op == 3, 1, 0)),
        0,
        0,
    )
}

// Registers first, and second where it is used, of an IALU.
#[tactic(auto, unfolding(crate::specs::Footprints::operand_bits))]
fn operand_bits(ialu: u32, first: u32, second: u32, used: bool) -> u64
    ensures { result ≡ footprints.operand_bits ialu first second used }
{
    index_bits(ialu, first, false) | index_bits(ialu, second, !used)
}

// A circular op reads the length with its index's number, and the base where the length held is not 0.
#[tactic(auto, unfolding(crate::specs::Footprints::buffer_bits))]
fn buffer_bits(ialu: u32, first: u32, circular: bool, length: u32) -> u64
    ensures { result ≡ footprints.buffer_bits ialu first circular length }
{
    let lengths = four_bits(LENGTH_BIT, ialu, first, select(circular, 1, 0));
    lengths | four_bits(BASE_BIT, ialu, first, select(length != 0, 1, 0))
}

#[tactic(auto, unfolding(crate::specs::Footprints::reads_arith))]
fn reads_arith(ialu: u32, op: u32, first: u32, second: u32, length: u32) -> PlaceSet
    ensures { result ≡ footprints.reads_arith ialu op first second length }
{
    let used = !((8 <= op) & (op <= 12)) & (second != 32);
    let operands = operand_bits(ialu, first, second, used);
    words(
        0,
        0,
        operands,
        buffer_bits(ialu, first, is_circular(op), length),
    )
}

// With the registers that a store moves, of R or of J and K.
#[tactic(auto, unfolding(crate::specs::Footprints::reads_access))]
fn reads_access(file: u32, moved: u64, operands: u64, buffers: u64) -> PlaceSet
    ensures { result ≡ footprints.reads_access file moved operands buffers }
{
    let in_ialu = select(file < 2, 0, moved);
    words(select(file < 2, moved, 0), 0, operands | in_ialu, buffers)
}

// The index, its circular buffer and the data alignment buffer of a block.
#[tactic(auto, unfolding(crate::specs::Footprints::reads_dab_load))]
fn reads_dab_load(ialu: u32, block: u32, first: u32, length: u32) -> PlaceSet
    ensures { result ≡ footprints.reads_dab_load ialu block first length }
{
    let buffers = buffer_bits(ialu, first, true, length);
    words(
        0,
        0,
        index_bits(ialu, first, false),
        buffers | dab_bits(block),
    )
}

// From the words v that the slot holds; loaded: the line loads the THR pair that it shifts.
#[tactic(auto, unfolding(crate::specs::Footprints::slot_reads))]
pub fn slot_reads(slot: Slot, loaded: bool, v: [u32; HELD_WORDS]) -> Footprint
    ensures { result ≡ footprints.slot_reads loaded slot v }
{
    match slot {
        Slot::Alu(block, op, _, first, second) => {
            let used = !((8 <= op) & (op <= 10));
            registers(reads_pair(block, first, second, used))
        }
        Slot::Shifter(block, op, _, first, second) => {
            registers(reads_pair(block, first, second, !(8 <= op)))
        }
        Slot::Trellis(block, _, _, first, second, quad) => {
            registers(reads_trellis(block, first, second, quad))
        }
        Slot::Tmax(block, _, _, first, second) => registers(reads_tmax(block, first, second)),
        Slot::Despread(block, op, target, first, pair, _) => {
            registers(reads_despread(block, op, target, first, pair, loaded))
        }
        Slot::Transfer(block, op, _, first) => registers(reads_transfer(block, op, first)),
        Slot::Arith(ialu, op, _, first, second, _) => {
            registers(reads_arith(ialu, op, first, second, v[LENGTH]))
        }
        Slot::Buffer(ialu, _, _, first) => registers(words(
            0,
            0,
            index_bits(ialu, first, false),
            0,
        )),
        Slot::Access(ialu, op, width, file, number, first, second, _) => {
            let moved = side_bits(file, number, select(is_store(op), width, 0));
            let operands = operand_bits(ialu, first, second, second != 32);
            let buffers = buffer_bits(ialu, first, is_circular(op), v[LENGTH]);
            let set = reads_access(file, moved, operands, buffers);
            let addr = address(op, v[INDEX], v[MODIFIER]);
            let words = words_at(addr, select(is_store(op), 0, width));
            Footprint { set, words }
        }
        Slot::DabLoad(ialu, block, _, first, _) => {
            let set = reads_dab_load(ialu, block, first, v[LENGTH]);
            let words = words_at(quad_at(v[INDEX]), 4);
            Footprint { set, words }
        }
    }
}
