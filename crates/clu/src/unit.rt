// Units 5, 6: X, Y CLU.
ghost use Rattle.std.specs.Prelude.{◌≡◌};
ghost use Rattle.clu.specs.Clu.{one, two, exact, clu};

use super::despread::{Pair, despread};
use super::shorts::{add_shorts, tmax_shorts};
use super::tmax::tmax_words;
use super::trellis::trellis;
use bits::flags::clu_flags;
use bits::signed::Sum;

// What an op gives: its one or two words, and the flag group.
#[derive(Clone, Copy)]
pub struct CluOutcome {
    pub low: u32,
    pub high: u32,
    pub flags: u32,
}

fn one(w: Sum, old: u32) -> CluOutcome
    ensures { result ≡ one w old }
{
    CluOutcome {
        low: w.value,
        high: 0,
        flags: clu_flags(w.over, old),
    }
}

fn two(l: Sum, h: Sum, old: u32) -> CluOutcome
    ensures { result ≡ two l h old }
{
    CluOutcome {
        low: l.value,
        high: h.value,
        flags: clu_flags(l.over | h.over, old),
    }
}

fn exact(w: u32) -> Sum
    ensures { result ≡ exact w }
{
    Sum {
        value: w,
        over: false,
    }
}

// The CLU's op by 01's number, as in its definition, which says what x, y and q are for each.
#[tactic(auto, unfolding(crate::specs::Clu::clu))]
pub fn clu(op: u32, x: Pair, y: Pair, q: [u32; 4], old: u32) -> CluOutcome
    ensures { result ≡ clu op x y q old }
{
    if (1 <= op) & (op <= 8) {
        let l = trellis(op, x.low, q[2], y.low, q[0]);
        let h = trellis(op, x.high, q[3], y.high, q[1]);
        return two(l, h, old);
    }
    match op {
        9 => one(tmax_words(x.low, y.low), old),
        10 => one(tmax_shorts(x.low, y.low), old),
        11 => one(add_shorts(x.low, despread(q, y.low, 0, 8)), old),
        12 => one(exact(despread(q, y.low, 0, 8)), old),
        13 => two(
            exact(despread(q, y.low, 0, 4)),
            exact(despread(q, y.low, 4, 4)),
            old,
        ),
        _ => CluOutcome {
            low: 0,
            high: 0,
            flags: 0,
        },
    }
}
