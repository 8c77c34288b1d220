// The bytes of an order: each step of the line exactly once, the rest 255, each fetch before the stores that wait for it.
ghost use Rattle.std.specs.Prelude.{◌≡◌, ◌≤◌, length, get_or};
ghost use Rattle.orders.specs.Orders as orders;
ghost use Rattle.orders.specs.AdmissibleFetched as fetched;

use conditional::line_slot::Fetched;
use footprints::line_slot::{reads_in_line, stores_in_line};

// How many bytes stand before the first of each value below 8; all of them where there is none.
fn positions(bytes: &[u8]) -> [u8; 8]
    requires { length bytes.now ≤ 8 }
    ensures { fetched.Positions result bytes.now }
{
    let mut at = [bytes.len() as u8; 8];
    for i in (0..bytes.len()).rev() {
        let b = bytes[i] as usize;
        if b < 8 {
            at[b] = i as u8;
        }
    }
    at
}

// Each step of a line of n slots stands before the end.
#[tactic(auto, unfolding(crate::specs::AdmissibleFetched::all_stand))]
fn all_stand(n: usize, end: u8, at: [u8; 8]) -> bool
    requires { n ≤ 4 }
    ensures { result ≡ fetched.all_stand n end at }
{
    at[..2 * n].iter().all(|p| *p < end)
}

// The bytes after those of the steps are 255.
#[tactic(auto, unfolding(crate::specs::Orders::unused))]
fn unused(bytes: &[u8]) -> bool
    ensures { result ≡ orders.unused bytes.now }
{
    bytes.iter().all(|b| *b == 255)
}

// Each slot's fetch stands before its own store, and before any other slot's store of a place that it reads. Places are
// compared only where the store stands first.
fn in_sequence(at: [u8; 8], slots: &[Fetched]) -> bool
    requires { length slots.now ≤ 4 }
    ensures { result ≡ fetched.in_sequence_by (λ b. get_or at b 0) slots.now }
{
    for (s, x) in slots.iter().enumerate() {
        for (t, y) in slots.iter().enumerate() {
            if at[2 * s] < at[2 * t + 1] {
                continue;
            }
            if s == t {
                return false;
            }
            if reads_in_line(x).meets(stores_in_line(y.slot.slot, y.held)) {
                return false;
            }
        }
    }
    true
}

// An order of a line by its slots, each with what it fetched before the line. No step is counted: bytes of no more than two a slot in
// which each step stands have each exactly once.
pub fn admissible<'a, 'b>(order: &'a [u8], slots: &'b [Fetched]) -> bool
    requires { length slots.now ≤ 4 }
    ensures { result ≡ fetched.admissible_fetched order.now slots.now }
{
    let n = slots.len();
    let end = (2 * n).min(order.len());
    let at = positions(&order[..end]);
    all_stand(n, end as u8, at) && unused(&order[end..]) && in_sequence(at, slots)
}
