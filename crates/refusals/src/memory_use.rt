// What a slot breaks of rules 9, 17 and 8, and the memory words that it stores, from what it holds.
ghost use Rattle.std.specs.Prelude.{◌≡◌, true};
ghost use Rattle.instructions.specs.Held as held;
ghost use Rattle.refusals.specs.Refusals as refusals;
ghost use Rattle.refusals.specs.MemoryUses as uses;

use conditional::line_slot::LIVE;
use instructions::fetch::{HELD_WORDS, INDEX, MODIFIER, circular_held};
use instructions::stored_words::words_stored;
use sets::range::{Range, no_words};
use slots::slot::Slot;
use word::circular::CircularBuffer;
use word::ialu::{address, quad_at};

// Whether a slot breaks rule 9, 17 or 8, and the memory words that it stores. aligned: a load through a data alignment buffer whose index
// is that of a quad, which is 17. No Option: a slot may break more than one, and stores its words in any case.
#[derive(Clone, Copy)]
pub struct MemoryUse {
    pub outside: bool,
    pub aligned: bool,
    pub misplaced: bool,
    pub stored: Range,
}

// A multiple of the width, which is 1, 2 or 4.
fn multiple(width: u32, x: u32) -> bool
    ensures { result ≡ refusals.multiple width x }
{
    (width == 1) | (width == 2) & (x % 2 == 0) | (width == 4) & (x % 4 == 0)
}

#[tactic(auto, using(crate::proofs::Magnitudes::signed_is))]
fn outside(size: u64, width: u32, index: u32, modifier: u32, buffer: CircularBuffer) -> bool
    ensures { result ≡ refusals.outside size width index modifier buffer.base buffer.length }
{
    let base = buffer.base;
    let length = buffer.length;
    (0 < length)
        & ((index < base)
            | (buffer.end <= index as u64)
            | (length < modifier.cast_signed().unsigned_abs())
            | (size < buffer.end)
            | !multiple(width, base)
            | !multiple(width, length))
}

fn misplaced(size: u64, width: u32, addr: u32) -> bool
    ensures { result ≡ refusals.misplaced size width addr }
{
    !multiple(width, addr) | (size < addr as u64 + width as u64)
}

// A slot that accesses no memory; outside: it breaks rule 9.
fn no_access(outside: bool) -> MemoryUse
    ensures { result ≡ uses.no_access outside }
{
    MemoryUse {
        outside,
        aligned: false,
        misplaced: false,
        stored: no_words(),
    }
}

// The words that a slot holds of its index, its modifier and its circular buffer, against rule 9.
fn outside_held(size: u64, width: u32, v: [u32; HELD_WORDS]) -> bool
    requires { held.EndIs v }
    ensures { result ≡ refusals.outside size width (held.index v) (held.modifier v) (held.base v) (held.len v) }
{
    outside(size, width, v[INDEX], v[MODIFIER], circular_held(v))
}

// A load through a data alignment buffer: rule 8 is on the quad that holds its index.
fn dab_use(size: u64, v: [u32; HELD_WORDS]) -> MemoryUse
    requires { held.EndIs v }
    ensures { result ≡ uses.dab_use size v }
{
    let index = v[INDEX];
    let quad = quad_at(index);
    MemoryUse {
        outside: outside_held(size, 4, v),
        aligned: index % 4 == 0,
        misplaced: misplaced(size, 4, quad),
        stored: no_words(),
    }
}

// A slot whose condition fails uses no memory.
#[tactic(auto, using(crate::proofs::Judgements::not_live_lem, crate::proofs::Judgements::no_use), unfolding(crate::specs::MemoryUses::use_of, instructions::specs::StoredWords::range_stored))]
pub fn use_of(size: u64, slot: Slot, v: [u32; HELD_WORDS]) -> MemoryUse
    requires { held.end_held slot v ≡ true }
    ensures { result ≡ uses.use_of size slot v }
{
    if v[LIVE] != 1 {
        return no_access(false);
    }
    match slot {
        Slot::Arith(..) => no_access(outside_held(size, 1, v)),
        Slot::Access(_, op, width, ..) => MemoryUse {
            outside: outside_held(size, width, v),
            aligned: false,
            misplaced: misplaced(size, width, address(op, v[INDEX], v[MODIFIER])),
            stored: words_stored(slot, v),
        },
        Slot::DabLoad(..) => dab_use(size, v),
        _ => no_access(false),
    }
}
