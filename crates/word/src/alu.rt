// Units 1, 2: X, Y ALU.
ghost use Rattle.std.specs.Prelude.{◌≡◌};
ghost use Rattle.word.specs.Alu.{added, subtracted, added_sat, subtracted_sat, max_signed, min_signed, sum_carries, difference_carries, alu};

use bits::flags::{Outcome, with_flags};
use bits::select::select;
use bits::signed::{Width, saturated_difference, saturated_sum, signed, word};

// The carry of a + b.
pub fn sum_carries(a: u32, b: u32) -> bool
    ensures { result ≡ sum_carries a b }
{
    a as u64 + b as u64 >= 0x1_0000_0000
}

// The carry of a + not b + 1.
pub fn difference_carries(a: u32, b: u32) -> bool
    ensures { result ≡ difference_carries a b }
{
    a as u64 + !b as u64 + 1 >= 0x1_0000_0000
}

pub fn add(a: u32, b: u32) -> Outcome
    ensures { result ≡ added a b }
{
    let s = saturated_sum(signed(a), signed(b), Width::Word);
    with_flags(a.wrapping_add(b), s.over, sum_carries(a, b))
}

pub fn subtract(a: u32, b: u32) -> Outcome
    ensures { result ≡ subtracted a b }
{
    let s = saturated_difference(signed(a), signed(b), Width::Word);
    with_flags(a.wrapping_sub(b), s.over, difference_carries(a, b))
}

pub fn add_saturating(a: u32, b: u32) -> Outcome
    ensures { result ≡ added_sat a b }
{
    let s = saturated_sum(signed(a), signed(b), Width::Word);
    with_flags(word(s.value), s.over, sum_carries(a, b))
}

pub fn subtract_saturating(a: u32, b: u32) -> Outcome
    ensures { result ≡ subtracted_sat a b }
{
    let s = saturated_difference(signed(a), signed(b), Width::Word);
    with_flags(word(s.value), s.over, difference_carries(a, b))
}

pub fn max_signed(a: u32, b: u32) -> u32
    ensures { result ≡ max_signed a b }
{
    select(signed(a) < signed(b), b, a)
}

pub fn min_signed(a: u32, b: u32) -> u32
    ensures { result ≡ min_signed a b }
{
    select(signed(b) < signed(a), b, a)
}

// The ALU's op on first and second, by 01's number of the op, as in its definition.
#[tactic(auto, using(bits::proofs::Words::ones_in_lem), unfolding(crate::specs::Alu::alu))]
pub fn alu(op: u32, a: u32, b: u32) -> Outcome
    ensures { result ≡ alu op a b }
{
    match op {
        1 => add(a, b),
        2 => subtract(a, b),
        3 => with_flags(max_signed(a, b), false, false),
        4 => with_flags(min_signed(a, b), false, false),
        5 => with_flags(a & b, false, false),
        6 => with_flags(a | b, false, false),
        7 => with_flags(a ^ b, false, false),
        8 => with_flags(!a, false, false),
        9 => with_flags(a, false, false),
        10 => with_flags(a.count_ones(), false, false),
        11 => add_saturating(a, b),
        12 => subtract_saturating(a, b),
        _ => Outcome { value: 0, flags: 0 },
    }
}
