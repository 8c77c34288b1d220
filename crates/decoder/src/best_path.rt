// The decoder's call.
ghost use Rattle.std.specs.Prelude.{◌≡◌, ℕ, ◌<◌, pos, get_or, ◌≤ℤ◌};
ghost use Rattle.decoder.specs.BestPath.{answer_code, answer_metric, Answered};

use super::forward::{STATES, forward};
use super::trace_back::trace_back;

pub const MAX_STAGES: u32 = 1024;

// Note 3's code for over 1,024 stages, or for branch values that are not eight a stage; a number, as C gets it.
pub const BAD_STAGES: u32 = 13;

// Note 3's code for an output shorter than stages+1, likewise.
pub const SHORT_PATH: u32 = 14;

// Why there is no path; what each case is stands at its code.
#[derive(Clone, Copy, Debug, PartialEq, Eq)]
pub enum Refusal {
    BadStages,
    ShortPath,
}

// Note 3's numbers of an answer: the code, and the metric, which is 0 where there is no path.
pub fn numbers(answer: Result<i32, Refusal>) -> (u32, i32)
    ensures { (result.0 ≡ answer_code answer) × (result.1 ≡ answer_metric answer) }
{
    match answer {
        Ok(metric) => (0, metric),
        Err(Refusal::BadStages) => (BAD_STAGES, 0),
        Err(Refusal::ShortPath) => (SHORT_PATH, 0),
    }
}

// The lowest state of the largest metric; an iterator's maximum is the last of equals.
fn best_state(metrics: [i32; STATES]) -> usize
    ensures { (result < 8) × ((s : ℕ) → s < 8 → get_or metrics s (pos 0) ≤ℤ get_or metrics result (pos 0)) }
{
    let mut best: usize = 0;
    for s in 1..STATES {
        if metrics[best] < metrics[s] {
            best = s;
        }
    }
    best
}

// The metric of a best path through the stages of g; its stages+1 states go to path. Which of several best ones, is left open.
pub fn best_path(stages: u32, g: &[i16], path: &mut [u8]) -> Result<i32, Refusal>
    ensures { Answered stages g.now path.old (answer_code result) (answer_metric result) path.new }
{
    if MAX_STAGES < stages {
        return Err(Refusal::BadStages);
    }
    let count = stages as usize;
    if g.len() != STATES * count {
        return Err(Refusal::BadStages);
    }
    if path.len() < count + 1 {
        return Err(Refusal::ShortPath);
    }
    let mut decisions = [0u8; MAX_STAGES as usize];
    let metrics = forward(count, g, &mut decisions);
    let last = best_state(metrics);
    trace_back(count, last as u8, &decisions, path);
    Ok(metrics[last])
}
