// The backward pass: from the last state to the starting one, by the decisions.
ghost use Rattle.std.specs.Prelude.{◌≡◌, ◌≤◌, ◌<◌, length};
ghost use Rattle.bits.specs.Flags.{flag};
ghost use Rattle.decoder.specs.BestPath.{Kept};
ghost use Rattle.decoder.specs.Survivors as survivors;

// The old state of s, by the decisions of its stage.
fn old_state(s: u8, decisions: u8) -> u8
    requires { s < 8 }
    ensures { (result ≡ survivors.chosen (flag s decisions) s) × (result < 8) }
{
    s / 2 + 4 * ((decisions >> s) % 2)
}

// Writes the path that ends in a state.
pub(crate) fn trace_back(stages: usize, last: u8, decisions: &[u8], path: &mut [u8])
    requires { (last < 8) × (stages ≤ length decisions.now) × (stages < length path.old) }
    ensures { survivors.Traced stages last decisions.now path.new
        × Kept stages path.old path.new }
{
    let mut s = last;
    path[stages] = s;
    for t in (0..stages).rev() {
        s = old_state(s, decisions[t]);
        path[t] = s;
    }
}
