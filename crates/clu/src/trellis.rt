// Units 5, 6, ops 1 to 8: TMAX or MAX of two saturated sums or differences.
ghost use Rattle.std.specs.Prelude.{◌≡◌, ℕ, ℤ, ◌+ℤ◌, ◌-ℤ◌};
ghost use Rattle.bits.specs.Sums.{bits, sat};
ghost use Rattle.bits.specs.declared.signed.Saturated.{Saturated};
ghost use Rattle.clu.specs.Tmax.{tmax, larger};
ghost use Rattle.clu.specs.Trellis.{lane, words, shorts, trellis};

use super::shorts::{high, join, low};
use super::tmax::{as_word, tmax};
use bits::signed::{Saturated, Sum, Width, saturated_difference, saturated_sum, signed};

// How the two values of a lane's sum are joined.
trait Join {
    ghost join: { ℤ → ℤ → ℤ };

    fn joined(a: i32, b: i32, w: Width) -> Saturated
        ensures { result ≡ sat (bits w) (join a b) };
}

struct Plus;

impl Join for Plus {
    ghost join = { ◌+ℤ◌ };

    fn joined(a: i32, b: i32, w: Width) -> Saturated {
        saturated_sum(a, b, w)
    }
}

struct Minus;

impl Join for Minus {
    ghost join = { ◌-ℤ◌ };

    fn joined(a: i32, b: i32, w: Width) -> Saturated {
        saturated_difference(a, b, w)
    }
}

// Which of two sums a lane keeps.
trait Best {
    ghost best: { ℕ → ℤ → ℤ → Saturated };

    fn kept(a: i32, b: i32, w: Width) -> Saturated
        ensures { result ≡ best (bits w) a b };
}

struct Tmax;

impl Best for Tmax {
    ghost best = { tmax };

    fn kept(a: i32, b: i32, w: Width) -> Saturated {
        tmax(a, b, w)
    }
}

struct Max;

impl Best for Max {
    ghost best = { larger };

    fn kept(a: i32, b: i32, _w: Width) -> Saturated {
        Saturated {
            value: a.max(b),
            over: false,
        }
    }
}

fn lane<B: Best, J: Join>(a: i32, r: i32, b: i32, s: i32, w: Width) -> Saturated
    ensures { result ≡ lane (bits w) B.best J.join a r b s }
{
    let p = J::joined(a, r, w);
    let q = J::joined(b, s, w);
    let t = B::kept(p.value, q.value, w);
    Saturated {
        value: t.value,
        over: (p.over | q.over) | t.over,
    }
}

// One lane of a word or two of its shorts: the lanes are read and put together differently, so these are two functions.
fn words<B: Best, J: Join>(a: u32, r: u32, b: u32, s: u32) -> Sum
    ensures { result ≡ words B.best J.join a r b s }
{
    as_word(lane::<B, J>(signed(a), signed(r), signed(b), signed(s), Width::Word))
}

fn shorts<B: Best, J: Join>(a: u32, r: u32, b: u32, s: u32) -> Sum
    ensures { result ≡ shorts B.best J.join a r b s }
{
    let w = Width::Short;
    join(
        lane::<B, J>(low(a), low(r), low(b), low(s), w),
        lane::<B, J>(high(a), high(r), high(b), high(s), w),
    )
}

// Ops 1 to 8 on one register of each pair: a and b of TR, r and s of R.
#[tactic(auto, unfolding(crate::specs::Trellis::trellis))]
pub(crate) fn trellis(op: u32, a: u32, r: u32, b: u32, s: u32) -> Sum
    ensures { result ≡ trellis op a r b s }
{
    match op {
        1 => words::<Tmax, Plus>(a, r, b, s),
        2 => words::<Tmax, Minus>(a, r, b, s),
        3 => words::<Max, Plus>(a, r, b, s),
        4 => words::<Max, Minus>(a, r, b, s),
        5 => shorts::<Tmax, Plus>(a, r, b, s),
        6 => shorts::<Tmax, Minus>(a, r, b, s),
        7 => shorts::<Max, Plus>(a, r, b, s),
        _ => shorts::<Max, Minus>(a, r, b, s),
    }
}
