// The condition call.
ghost use Rattle.std.specs.Prelude.{◌≡◌};
ghost use Rattle.machine.specs.Conditions as spec;

use crate::state::State;
use bits::flags::flag;

// One of the six conditions, from a group's Z and N.
#[tactic(auto, unfolding(crate::specs::Conditions::met))]
fn met(c: u32, z: bool, n: bool) -> bool
    ensures { result ≡ spec.met c z n }
{
    match c {
        0 => z,
        1 => n,
        2 => z | n,
        3 => !z,
        4 => !n,
        5 => !(z | n),
        _ => false,
    }
}

// A condition, from the flag group of its IALU alone: a caller need not have a state by value.
#[tactic(auto, unfolding(crate::specs::Conditions::holds_in))]
pub fn holds_in(number: u32, group: u32) -> bool
    ensures { result ≡ spec.holds_in number group }
{
    met(number % 6, flag(0, group), flag(1, group))
}

// 0 to 5 on J, 6 to 11 on K: EQ LT LE NEQ NLT NLE. None is 01's code 12: a number above 11.
#[tactic(auto, unfolding(crate::specs::Conditions::condition_of, crate::specs::Conditions::holds))]
pub fn condition(number: u32, state: State) -> Option<bool>
    ensures { spec.Answers number state.flags result }
{
    if 11 < number {
        return None;
    }
    Some(holds_in(number, state.flags[6 + (number / 6) as usize]))
}
