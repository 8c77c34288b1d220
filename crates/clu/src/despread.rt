// DESPREAD.
ghost use Rattle.std.specs.Prelude.{◌≡◌, ◌+◌, ◌≤◌, ◌<◌, nat_abs, ◌*ℤ◌};
ghost use Rattle.bits.specs.Signed.{signed};
ghost use Rattle.clu.specs.Despread.{part, plus_minus, real, imaginary, despread, shifted_pair};

use bits::flags::flag;
use bits::signed::word;

// Two registers, the lower number in low.
#[derive(Clone, Copy)]
pub struct Pair {
    pub low: u32,
    pub high: u32,
}

// Part k of the quad.
fn part(quad: [u32; 4], k: u32) -> u32
    requires { k < 8 }
    ensures { result ≡ part quad k }
{
    (quad[(k / 2) as usize] >> (16 * (k % 2))) % 0x1_0000
}

// The signed byte x, or its negative where set.
fn signed_byte(set: bool, x: u32) -> i32
    requires { x < 256 }
    ensures { (result ≡ plus_minus set *ℤ signed 8 x) × (nat_abs result ≤ 128) }
{
    let y = i32::from((x as u8).cast_signed());
    if set { -y } else { y }
}

// Term k of the real sum.
fn real(quad: [u32; 4], t: u32, k: u32) -> i32
    requires { k < 8 }
    ensures { (result ≡ real quad t k) × (nat_abs result ≤ 256) }
{
    let d = part(quad, k);
    let i = signed_byte(flag(2 * k, t), d % 256);
    let q = signed_byte(flag(2 * k + 1, t), d / 256);
    i - q
}

// Term k of the imaginary sum.
fn imaginary(quad: [u32; 4], t: u32, k: u32) -> i32
    requires { k < 8 }
    ensures { (result ≡ imaginary quad t k) × (nat_abs result ≤ 256) }
{
    let d = part(quad, k);
    let i = signed_byte(flag(2 * k, t), d / 256);
    let q = signed_byte(flag(2 * k + 1, t), d % 256);
    i + q
}

// The n parts from k on, with the low register t of the THR pair.
pub(crate) fn despread(quad: [u32; 4], t: u32, k: u32, n: u32) -> u32
    requires { k + n ≤ 8 }
    ensures { result ≡ despread quad t k n }
{
    let mut re: i32 = 0;
    let mut im: i32 = 0;
    for i in 0..n {
        re += real(quad, t, k + i);
        im += imaginary(quad, t, k + i);
    }
    word(re) % 0x1_0000 + word(im) % 0x1_0000 * 0x1_0000
}

// A THR pair after DESPREAD: 64 bits, shifted right 16.
pub fn shift_pair(p: Pair) -> Pair
    ensures { result ≡ shifted_pair p }
{
    let s = (p.low as u64 + p.high as u64 * 0x1_0000_0000) >> 16;
    Pair {
        low: (s % 0x1_0000_0000) as u32,
        high: (s / 0x1_0000_0000) as u32,
    }
}
