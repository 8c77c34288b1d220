// One state of one stage: its two sums, the larger of them, and which it is. Sums are exact: no metric here comes near 2^31.
ghost use Rattle.std.specs.Prelude.{◌≡◌, ◌^◌, ◌≤◌, nat_abs, ◌+ℤ◌, ◌-ℤ◌};
ghost use Rattle.std.specs.Int.Signed.{lt_z};
ghost use Rattle.clu.specs.Tmax.{max_z};

// A new state's metric, and whether it comes from floor(s/2)+4; where both sums are equal it does not. Both are always meant.
#[derive(Clone, Copy)]
pub(crate) struct Choice {
    pub metric: i32,
    pub upper: bool,
}

// The choice for a new state: floor(s/2) less the branch value, or floor(s/2)+4 plus it. Minus -32,768 is 32,768.
pub(crate) fn choose(lower: i32, upper: i32, g: i16) -> Choice
    requires { (nat_abs lower ≤ 2 ^ 30) × (nat_abs upper ≤ 2 ^ 30) }
    ensures { (result.metric ≡ max_z (lower -ℤ g) (upper +ℤ g)) × (result.upper ≡ lt_z (lower -ℤ g) (upper +ℤ g)) }
{
    let subtracted = lower - i32::from(g);
    let added = upper + i32::from(g);
    Choice {
        metric: subtracted.max(added),
        upper: subtracted < added,
    }
}
