// One case: check call, plain run and ordered run, each compared with what the record expects.
ghost use Rattle.std.specs.Prelude.{◌≡◌, ◌≤◌, ◌*◌, length};
ghost use Rattle.machine.specs.Machine.{machine};
ghost use Rattle.replay.specs.Record.{Fill};
ghost use Rattle.replay.specs.Case as spec;

use crate::compare::Difference;
use crate::outcome::{CHECK_WORDS, RUN_WORDS, check_difference, run_difference};
use crate::record::{Fault, Parts, layout_of};
use image::bytes::load_words;
use image::check::check;
use layout::table::STATE_WORDS;
use machine::state::State;
use ordered::run::run_ordered;
use runs::run::run;
use states::words::state_of;

// The words of a record, at most: room for an image and three memories of far over 16,384 words.
pub(crate) const RECORD_WORDS: usize = 262144;

// A record that is broken, or the first difference of a case, with the call that answers it.
#[derive(Clone, Copy)]
pub(crate) enum Failure {
    Broken(Fault),
    Check(Difference),
    Plain(Difference),
    Ordered(Difference),
}

fn check_case(words: &[u32], p: Parts) -> Result<(), Difference>
    requires { Fill p (length words.now) }
    ensures { result ≡ spec.check_compared words.now p }
{
    let image = p.image;
    let at = p.check;
    check_difference(&words[at..at + CHECK_WORDS], check(&words[1..1 + image]))
}

// The state before, and the memory before in the lent words.
fn start(words: &[u32], p: Parts, memory: &mut [u32]) -> State
    requires { Fill p (length words.now) × (length memory.old ≡ p.memory) }
    ensures { machine result memory.new ≡ spec.machine_in words.now p }
{
    let from = 2 + p.image;
    let at = p.state;
    memory.copy_from_slice(&words[from..at]);
    state_of(&words[at..at + STATE_WORDS])
}

fn plain_case(words: &[u32], p: Parts, memory: &mut [u32]) -> Result<(), Difference>
    requires { Fill p (length words.now) × (length memory.old ≡ p.memory) }
    ensures { result ≡ spec.plain_compared words.now p }
{
    let image = p.image;
    let at = p.plain;
    let end = at + RUN_WORDS + memory.len();
    let state = start(words, p, memory);
    let ran = run(&words[1..1 + image], state, memory);
    run_difference(&words[at..end], ran, memory)
}

// The limit's low word comes first.
fn limit_of(low: u32, high: u32) -> u64
    ensures { result ≡ spec.limit_of low high }
{
    low as u64 + 4294967296 * (high as u64)
}

// The orders' bytes lie in the file as the run takes them.
fn ordered_case(bytes: &[u8], words: &[u32], p: Parts, memory: &mut [u32]) -> Result<(), Difference>
    requires { Fill p (length words.now) × (length memory.old ≡ p.memory)
        × (4 * length words.now ≤ length bytes.now) }
    ensures { result ≡ spec.ordered_compared bytes.now words.now p }
{
    let image = p.image;
    let at = p.ordered;
    let end = at + RUN_WORDS + memory.len();
    let from = 4 * (p.state + STATE_WORDS + 1);
    let orders = &bytes[from..from + p.orders];
    let l = p.limit;
    let limit = limit_of(words[l], words[l + 1]);
    let state = start(words, p, memory);
    let ran = run_ordered(&words[1..1 + image], orders, limit, state, memory);
    run_difference(&words[at..end], ran, memory)
}

fn compare_calls(bytes: &[u8], words: &[u32], p: Parts, memory: &mut [u32]) -> Result<(), Failure>
    requires { Fill p (length words.now) × (length memory.old ≡ p.memory)
        × (4 * length words.now ≤ length bytes.now) }
    ensures { result ≡ spec.calls_verdict bytes.now words.now p }
{
    check_case(words, p).map_err(Failure::Check)?;
    plain_case(words, p, memory).map_err(Failure::Plain)?;
    ordered_case(bytes, words, p, memory).map_err(Failure::Ordered)
}

// Of a record's bytes. The other two are room for its words and its memory: what they held before does not matter.
pub(crate) fn replay_record(
    bytes: &[u8],
    room: &mut [u32],
    memory: &mut [u32],
) -> Result<(), Failure>
    requires { (length bytes.now ≤ 4 * length room.old) × (length room.old ≤ length memory.old) }
    ensures { result ≡ spec.verdict_of bytes.now }
{
    let n = bytes.len() / 4;
    load_words(bytes, room);
    let words = &room[0..n];
    let p = layout_of(words).map_err(Failure::Broken)?;
    let m = p.memory;
    compare_calls(bytes, words, p, &mut memory[0..m])
}
