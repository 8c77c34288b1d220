// A slot's fetch.
ghost use Rattle.std.specs.Prelude.{◌≡◌, ◌≤◌, length};
ghost use Rattle.machine.specs.Machine.{EndsTrue};
ghost use Rattle.machine.specs.Fetches.{values};
ghost use Rattle.layout.specs.Layout.{machine_of, state_of};
ghost use Rattle.instructions.specs.Fetching.{fetch_of};
ghost use Rattle.instructions.specs.Held as held;

use crate::block_fetch::{
    fetch_alu, fetch_despread, fetch_shifter, fetch_tmax, fetch_transfer, fetch_trellis,
};
use crate::dab_load::fetch_dab_load;
use crate::ialu_fetch::{fetch_access, fetch_arith, fetch_buffer};
use layout::table::STATE_WORDS;
use layout::two_words::from_words;
use slots::slot::Slot;
use word::circular::CircularBuffer;

// The words that a slot holds: operands, address and loaded words.
pub const HELD_WORDS: usize = 16;

// The words held of an IALU slot.
pub const INDEX: usize = 0;

pub const MODIFIER: usize = 1;

pub const BASE: usize = 2;

pub const LENGTH: usize = 3;

// The words that an access moves.
pub const MOVED: usize = 4;

pub const END_LOW: usize = 8;

pub const END_HIGH: usize = 9;

// The words of a data alignment buffer, as a load through it found them.
pub const OLD_QUAD: usize = 10;

// The old flags held of a CLU slot.
pub const OLD_FLAGS: usize = 8;

// The words that a slot's family has, with zeros behind them.
#[inline(always)]
pub(crate) fn hold(words: &[u32]) -> [u32; HELD_WORDS]
    requires { length words.now ≤ held.held_words }
    ensures { result ≡ held.padded held.held_words words.now }
{
    let mut held = [0; HELD_WORDS];
    held[..words.len()].copy_from_slice(words);
    held
}

// What an IALU slot holds of its circular buffer. It is no `CircularBuffer`: of words that no fetch made, the end is any.
#[derive(Clone, Copy)]
pub struct HeldBuffer {
    pub base: u32,
    pub length: u32,
    pub end: u64,
}

pub fn buffer_held(v: [u32; HELD_WORDS]) -> HeldBuffer
    ensures { result ≡ held.buffer v }
{
    HeldBuffer {
        base: v[BASE],
        length: v[LENGTH],
        end: from_words(v[END_LOW], v[END_HIGH]),
    }
}

// The circular buffer of a slot that was fetched.
pub fn circular_held(v: [u32; HELD_WORDS]) -> CircularBuffer
    requires { held.EndIs v }
    ensures { (result.base ≡ held.base v) × (result.length ≡ held.len v) × (result.end ≡ held.end v) }
{
    let held = buffer_held(v);
    CircularBuffer {
        base: held.base,
        length: held.length,
        end: held.end,
    }
}

// What a slot holds after its fetch. That the ends are right is no type of the words, since store_slot answers for any ends.
pub fn fetch_slot<'a, 'b>(
    slot: Slot,
    loaded: bool,
    files: &'a [u32; STATE_WORDS],
    memory: &'b [u32],
) -> [u32; HELD_WORDS]
    requires { EndsTrue (state_of files.now) }
    ensures { result ≡ values (fetch_of loaded slot) (machine_of files.now memory.now) }
{
    match slot {
        Slot::Alu(block, op, _, first, second) => fetch_alu(block, op, first, second, files),
        Slot::Shifter(block, op, _, first, second) => {
            fetch_shifter(block, op, first, second, files)
        }
        Slot::Trellis(block, _, _, first, second, quad) => {
            fetch_trellis(block, first, second, quad, files)
        }
        Slot::Tmax(block, _, _, first, second) => fetch_tmax(block, first, second, files),
        Slot::Despread(..) => fetch_despread(slot, loaded, files),
        Slot::Transfer(block, op, _, first) => fetch_transfer(block, op, first, files),
        Slot::Arith(ialu, op, _, first, second, imm) => {
            fetch_arith(ialu, op, first, second, imm, files)
        }
        Slot::Buffer(ialu, _, _, first) => fetch_buffer(ialu, first, files),
        Slot::Access(..) => fetch_access(slot, files, memory),
        Slot::DabLoad(ialu, block, _, first, _) => {
            fetch_dab_load(ialu, block, first, files, memory)
        }
    }
}
