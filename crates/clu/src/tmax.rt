// TMAX of two signed values.
ghost use Rattle.std.specs.Prelude.{◌≡◌, ◌-ℤ◌};
ghost use Rattle.bits.specs.Sums.{bits};
ghost use Rattle.clu.specs.Tmax.{distance, tmax, as_word, tmax_words};

use super::correction::correction;
use bits::signed::{Saturated, Sum, Width, saturate, signed, word};

// d = a - b, and where that is negative -d - 1.
fn distance(a: i32, b: i32) -> u64
    ensures { result ≡ distance (a -ℤ b) }
{
    let d = i64::from(a) - i64::from(b);
    if d < 0 { (-d - 1) as u64 } else { d as u64 }
}

pub fn tmax(a: i32, b: i32, w: Width) -> Saturated
    ensures { result ≡ tmax (bits w) a b }
{
    let entry = correction(distance(a, b));
    saturate(i64::from(a.max(b)) + i64::from(entry), w)
}

pub fn as_word(s: Saturated) -> Sum
    ensures { result ≡ as_word s }
{
    Sum {
        value: word(s.value),
        over: s.over,
    }
}

pub fn tmax_words(a: u32, b: u32) -> Sum
    ensures { result ≡ tmax_words a b }
{
    as_word(tmax(signed(a), signed(b), Width::Word))
}
