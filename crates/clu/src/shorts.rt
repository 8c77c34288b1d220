// Words of two shorts, low first.
ghost use Rattle.std.specs.Prelude.{◌≡◌, ◌^◌, ◌<◌};
ghost use Rattle.bits.specs.Signed.{signed};
ghost use Rattle.clu.specs.Tmax.{low, high, as_shorts, tmax_shorts, add_shorts};

use super::tmax::tmax;
use bits::signed::{Saturated, Sum, Width, saturated_sum, word};

fn short(h: u32) -> i32
    requires { h < 2 ^ 16 }
    ensures { result ≡ signed 16 h }
{
    i32::from((h as u16).cast_signed())
}

pub fn low(w: u32) -> i32
    ensures { result ≡ low w }
{
    short(w % 0x1_0000)
}

pub fn high(w: u32) -> i32
    ensures { result ≡ high w }
{
    short(w / 0x1_0000)
}

pub fn join(l: Saturated, h: Saturated) -> Sum
    ensures { result ≡ as_shorts l h }
{
    Sum {
        value: word(l.value) % 0x1_0000 + word(h.value) % 0x1_0000 * 0x1_0000,
        over: l.over | h.over,
    }
}

pub fn tmax_shorts(a: u32, b: u32) -> Sum
    ensures { result ≡ tmax_shorts a b }
{
    join(
        tmax(low(a), low(b), Width::Short),
        tmax(high(a), high(b), Width::Short),
    )
}

pub fn add_shorts(a: u32, b: u32) -> Sum
    ensures { result ≡ add_shorts a b }
{
    join(
        saturated_sum(low(a), low(b), Width::Short),
        saturated_sum(high(a), high(b), Width::Short),
    )
}
