// Units 3, 4: X, Y shifter.
ghost use Rattle.std.specs.Prelude.{◌≡◌, ◌%◌, ◌^◌, ◌<◌};
ghost use Rattle.bits.specs.Signed.{signed};
ghost use Rattle.word.specs.Shifter.{left, right, right_signed, shift, rotate, tested, shifter};

use bits::flags::{Outcome, flag_word, with_flags};
use bits::signed::{signed, word};

pub fn left(a: u32, k: u64) -> u32
    ensures { result ≡ left a k }
{
    if k < 32 { a << k } else { 0 }
}

pub fn right(a: u32, k: u64) -> u32
    ensures { result ≡ right a k }
{
    if k < 32 { a >> k } else { 0 }
}

// The copies of the sign come down; after 31 places there is nothing else.
pub fn right_signed(a: u32, k: u64) -> u32
    ensures { result ≡ right_signed a k }
{
    word(signed(a) >> k.min(31))
}

// By the signed word s: positive left. Two functions, since a closure for the right shift would bring clauses longer than a body.
pub fn shift_logical(a: u32, s: u32) -> u32
    ensures { result ≡ shift right a (signed 32 s) }
{
    let places = signed(s);
    let k = u64::from(places.unsigned_abs());
    if places < 0 { right(a, k) } else { left(a, k) }
}

pub fn shift_arithmetic(a: u32, s: u32) -> u32
    ensures { result ≡ shift right_signed a (signed 32 s) }
{
    let places = signed(s);
    let k = u64::from(places.unsigned_abs());
    if places < 0 {
        right_signed(a, k)
    } else {
        left(a, k)
    }
}

pub fn rotate(a: u32, s: u32) -> u32
    ensures { result ≡ rotate a (s % 32) }
{
    a.rotate_left(s % 32)
}

// Bit s mod 32 alone.
fn bit_at(s: u32) -> u32
    ensures { result ≡ 2 ^ (s % 32) }
{
    1u32 << (s % 32)
}

fn test(a: u32, s: u32) -> Outcome
    ensures { result ≡ tested a (s % 32) }
{
    Outcome {
        value: 0,
        flags: flag_word((a >> (s % 32)) % 2 == 0, false, false, false),
    }
}

// The shifter's op on first and second, by 01's number of the op, as in its definition.
#[tactic(auto, unfolding(crate::specs::Shifter::shifter))]
pub fn shifter(op: u32, a: u32, b: u32) -> Outcome
    ensures { result ≡ shifter op a b }
{
    match op {
        1 => with_flags(shift_logical(a, b), false, false),
        2 => with_flags(shift_arithmetic(a, b), false, false),
        3 => with_flags(rotate(a, b), false, false),
        4 => with_flags(a | bit_at(b), false, false),
        5 => with_flags(a & !bit_at(b), false, false),
        6 => with_flags(a ^ bit_at(b), false, false),
        7 => test(a, b),
        8 => with_flags(a.leading_zeros(), false, false),
        9 => with_flags((!a).leading_zeros(), false, false),
        _ => Outcome { value: 0, flags: 0 },
    }
}
