// The forward pass: eight metrics, and one decision bit a state and stage.
ghost use Rattle.std.specs.Prelude.{◌≡◌, ℕ, ◌+◌, ◌*◌, ◌≤◌, ◌<◌, pos, length, get_or};
ghost use Rattle.bits.specs.Flags.{flag};
ghost use Rattle.decoder.specs.Trellis as trellis;
ghost use Rattle.decoder.specs.Survivors as survivors;

use super::branch::choose;
use bits::flags::bit;

pub const STATES: usize = 8;

// Stage t: the new metrics, and the decisions as a byte, state 0 lowest.
fn stage(t: usize, g: &[i16], old: [i32; STATES], new: &mut [i32]) -> u8
    requires { (t < 1024) × (8 * t + 8 ≤ length g.now) × (length new.old ≡ 8) × survivors.Sized t old }
    ensures { (length new.new ≡ 8) × survivors.Sized (t + 1) new.new
        × ((s : ℕ) → s < 8 → get_or new.new s (pos 0)
        ≡ trellis.new_metric (survivors.at old) (trellis.branch g.now t) s)
        × ((s : ℕ) → s < 8 → flag s result ≡ survivors.from_upper (survivors.at old) (trellis.branch g.now t) s) }
{
    let mut decisions: u32 = 0;
    for s in (0..STATES).rev() {
        let choice = choose(old[s / 2], old[s / 2 + 4], g[STATES * t + s]);
        let metric = choice.metric;
        new[s] = metric;
        decisions = bit(choice.upper) + 2 * decisions;
    }
    decisions as u8
}

// The metrics after all stages; the decisions of stage t are in byte t.
pub(crate) fn forward(stages: usize, g: &[i16], decisions: &mut [u8]) -> [i32; STATES]
    requires { (stages ≤ 1024) × (length g.now ≡ 8 * stages) × (stages ≤ length decisions.old) }
    ensures { ((s : ℕ) → s < 8 → get_or result s (pos 0) ≡ trellis.metric_after g.now stages s)
        × survivors.Decided stages g.now decisions.new }
{
    let mut metrics = [0i32; STATES];
    for t in 0..stages {
        let old = metrics;
        decisions[t] = stage(t, g, old, &mut metrics);
    }
    metrics
}
