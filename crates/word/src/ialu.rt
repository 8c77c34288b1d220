// Units 7, 8: J, K IALU.
ghost use Rattle.std.specs.Prelude.{◌≡◌, ◌%◌, ◌^◌};
ghost use Rattle.std.specs.Int.Signed.{shr_z};
ghost use Rattle.bits.specs.Signed.{wrap};
ghost use Rattle.word.specs.Addresses.{quad_at};
ghost use Rattle.word.specs.Alu.{sum_z};
ghost use Rattle.word.specs.Ialu.{ialu, address, updated};

use super::alu::{add, subtract};
use super::circular::{CircularBuffer, circular};
use super::reverse::add_reversed;
use super::shifter::{right, right_signed, rotate};
use bits::flags::{Outcome, with_flags};
use bits::select::select;
use bits::signed::{signed, word};

// (a + b) / 2 signed, rounded down.
pub fn mean(a: u32, b: u32) -> u32
    ensures { result ≡ wrap 32 (shr_z (sum_z a b) 2) }
{
    let exact = i64::from(signed(a)) + i64::from(signed(b));
    word((exact >> 1) as i32)
}

// The IALU's op on first and second, by 01's number of the op, as in its definition; the buffer is that of the index, for the
// circular add.
#[tactic(auto, unfolding(crate::specs::Ialu::ialu))]
pub fn ialu(op: u32, a: u32, b: u32, buffer: CircularBuffer) -> Outcome
    ensures { result ≡ ialu op a b buffer.base buffer.length }
{
    match op {
        1 => add(a, b),
        2 => subtract(a, b),
        3 => with_flags(mean(a, b), false, false),
        4 => with_flags(a & b, false, false),
        5 => with_flags(a & !b, false, false),
        6 => with_flags(a | b, false, false),
        7 => with_flags(a ^ b, false, false),
        8 => with_flags(!a, false, false),
        9 => with_flags(right_signed(a, 1), false, a % 2 == 1),
        10 => with_flags(right(a, 1), false, a % 2 == 1),
        11 => with_flags(rotate(a, 1), false, false),
        12 => with_flags(rotate(a, 31), false, false),
        13 => with_flags(circular(buffer, a, b).value, false, false),
        14 => with_flags(add_reversed(a, b), false, false),
        15 => Outcome { value: a, flags: 0 },
        16 => Outcome { value: a, flags: 0 },
        _ => Outcome { value: 0, flags: 0 },
    }
}

// The address of an access.
pub fn address(op: u32, index: u32, modifier: u32) -> u32
    ensures { result ≡ address op index modifier }
{
    select((op == 18) | (op == 20), index.wrapping_add(modifier), index)
}

// The aligned quad that holds an index.
pub fn quad_at(index: u32) -> u32
    ensures { result ≡ quad_at index }
{
    index - index % 4
}

// The index after an access.
pub fn updated(op: u32, index: u32, modifier: u32, buffer: CircularBuffer) -> u32
    ensures { result ≡ updated op index modifier buffer.base buffer.length }
{
    if (op == 18) | (op == 20) {
        return index;
    }
    if (op == 21) | (op == 22) {
        return circular(buffer, index, modifier).value;
    }
    if op == 23 {
        return add_reversed(index, modifier);
    }
    index.wrapping_add(modifier)
}
