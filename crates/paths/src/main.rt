// Program paths: worked examples of the decoder, as its compiled code answers them.
#![tactic(auto)]

ghost use Rattle.std.specs.Prelude.{◌≡◌};
ghost use Rattle.decoder.proofs.WorkedPaths as worked;

use decoder::best_path::{best_path, numbers};
use std::io;

// The entries of an output from one on.
fn print_entries(rt: &impl Print, path: &[u8], from: usize) -> io::Result<()> {
    for n in path.iter().skip(from) {
        print!(rt; " {n}")?;
    }
    Ok(())
}

// What the example is, code and metric, and the output from an entry on.
fn show(
    rt: &impl Print,
    name: &str,
    stages: u32,
    g: &[i16],
    path: &mut [u8],
    from: usize,
) -> io::Result<()> {
    let (code, metric) = numbers(best_path(stages, g, path));
    print!(rt; "{name} {code} {metric}")?;
    print_entries(rt, path, from)?;
    println!(rt;)
}

// Three stages, whose only best one of 64 paths is 3, 7, 6, 4.
fn three() -> [i16; 24]
    ensures { result ≡ worked.three }
{
    [
        3, -1, 4, -1, 5, -9, 2, -6, 5, 3, -5, 8, -9, 7, 9, -3, 2, 3, -8, 4, 9, 2, -6, 4,
    ]
}

// Decoded; refused for a value too few; refused for an output too short.
fn three_stages(rt: &impl Print) -> io::Result<()> {
    let g = three();
    let mut path = [255u8; 6];
    show(rt, "three stages:", 3, &g, &mut path, 0)?;
    let mut kept = [255u8; 3];
    show(rt, "three stages of 23 values:", 3, &g[0..23], &mut kept, 0)?;
    show(rt, "three stages, an output of three:", 3, &g, &mut kept, 0)
}

// The most stages, each of them worth 32,768; and one more.
fn most_stages(rt: &impl Print) -> io::Result<()> {
    let g = [-32768i16; 8200];
    let mut path = [255u8; 1027];
    show(
        rt,
        "1,024 stages of -32,768:",
        1024,
        &g[0..8192],
        &mut path,
        1025,
    )?;
    let mut kept = [255u8; 2];
    show(rt, "1,025 stages:", 1025, &g, &mut kept, 0)
}

fn no_stages(rt: &impl Print) -> io::Result<()> {
    let mut path = [255u8; 3];
    show(rt, "no stages:", 0, &[], &mut path, 1)
}

fn main(rt: HostRuntime) -> io::Result<()> {
    three_stages(&rt)?;
    most_stages(&rt)?;
    no_stages(&rt)
}
