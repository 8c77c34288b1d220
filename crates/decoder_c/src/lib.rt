// What a C program links of the decoder, as libdecoder.a: the call, with the library's contract.
#![tactic(auto)]

ghost use Rattle.decoder.specs.Exported.{Exported};

// The decoder's call: the code is the result, the metric goes to a buffer of one entry.
#[unsafe(no_mangle)]
pub extern "C" fn ts201_best_path(
    stages: u32,
    g: &[i16],
    path: &mut [u8],
    metric: &mut [i32],
) -> u32
    ensures { Exported stages g.now path.old metric.old result path.new
        metric.new }
{
    decoder::ts201_best_path(stages, g, path, metric)
}
