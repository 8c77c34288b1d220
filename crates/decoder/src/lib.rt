// The decoder of Note 3: the best path through the 8-state trellis of document 000, and its call from C, which decoder_c exports.
#![tactic(auto)]

pub mod best_path;
pub mod branch;
pub mod forward;
pub mod trace_back;

ghost use Rattle.decoder.specs.Exported.{Exported};

use best_path::{best_path, numbers};

// The answer to a metric's buffer of a wrong length. It is no code of 01 or 02, and nothing has been changed.
pub const BAD_BUFFER: u32 = 255;

// The decoder's call: the code is the result, the metric goes to a buffer of one entry.
#[unsafe(no_mangle)]
pub extern "C" fn ts201_best_path(
    stages: u32,
    g: &[i16],
    path: &mut [u8],
    metric: &mut [i32],
) -> u32
    ensures { Exported stages g.now path.old metric.old result path.new
        metric.new }
{
    if metric.len() != 1 {
        return BAD_BUFFER;
    }
    let (code, best) = numbers(best_path(stages, g, path));
    metric[0] = best;
    code
}
