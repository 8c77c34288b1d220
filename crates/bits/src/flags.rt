// The words of the flag groups, flags from the low bit up.
ghost use Rattle.std.specs.Prelude.{◌≡◌, ◌≤◌};
ghost use Rattle.bits.specs.Flags.{bit, flag_word, flag, outcome, clu_flags};

// What an op gives: the value, and its unit's flag group.
#[derive(Clone, Copy)]
pub struct Outcome {
    pub value: u32,
    pub flags: u32,
}

pub fn bit(b: bool) -> u32
    ensures { (result ≡ bit b) × (result ≤ 1) }
{
    u32::from(b)
}

// The word of four flags, f0 lowest.
pub fn flag_word(f0: bool, f1: bool, f2: bool, f3: bool) -> u32
    ensures { result ≡ flag_word f0 f1 f2 f3 }
{
    bit(f0) + 2 * bit(f1) + 4 * bit(f2) + 8 * bit(f3)
}

// Flag i of a group's word.
pub fn flag(i: u32, w: u32) -> bool
    ensures { result ≡ flag i w }
{
    if i < 32 { (w >> i) % 2 == 1 } else { false }
}

// A value with its Z and N, and V and C as given.
pub fn with_flags(x: u32, v: bool, c: bool) -> Outcome
    ensures { result ≡ outcome x v c }
{
    Outcome {
        value: x,
        flags: flag_word(x == 0, x >= 0x8000_0000, v, c),
    }
}

// The CLU's group after an op: TRSOV stays set once it is.
pub fn clu_flags(trov: bool, old: u32) -> u32
    ensures { result ≡ clu_flags trov old }
{
    flag_word(trov, trov | flag(1, old), false, false)
}
