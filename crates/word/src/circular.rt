// The circular address rule.
ghost use Rattle.std.specs.Prelude.{◌≡◌, ◌+◌};
ghost use Rattle.word.specs.Addresses.{circular};

use bits::select::select;
use bits::signed::signed;

// A circular buffer. Its end is the exact sum of base and length.
#[derive(Clone, Copy)]
pub struct CircularBuffer {
    pub base: u32,
    pub length: u32,
    pub end: u64,
    pub ghost end_is: { end ≡ base + length },
}

// What the rule answers.
#[derive(Clone, Copy)]
pub struct Address {
    pub value: u32,
}

// The sums wrap; the comparisons are exact.
pub fn circular(buffer: CircularBuffer, index: u32, modifier: u32) -> Address
    ensures { result ≡ circular buffer.base buffer.length index modifier }
{
    let len = buffer.length;
    let exact = i64::from(index) + i64::from(signed(modifier));
    let first = i64::from(buffer.base);
    let end = buffer.end as i64;
    let sum = index.wrapping_add(modifier);
    let up = select(exact < first, sum.wrapping_add(len), sum);
    let wrapped = select(end <= exact, sum.wrapping_sub(len), up);
    Address {
        value: select(len == 0, sum, wrapped),
    }
}
