// Program linerun: the plain run of the image on standard input, on 64 zero words and the zero state.
#![tactic(auto)]

mod bytes_run;

use bytes_run::{numbers, run_bytes};
use input::fill;
use std::io;

// Eight numbers, four a line.
fn print_two_lines(rt: &impl Print, n: [u32; 8]) -> io::Result<()> {
    println!(rt; "{} {} {} {}", n[0], n[1], n[2], n[3])?;
    println!(rt; "{} {} {} {}", n[4], n[5], n[6], n[7])
}

// One byte more than an image may have shows that there are too many. A failed read ends the image as the end of the input
// does, and is told on standard error; where that cannot be written either, the two lines are.
fn main(rt: HostRuntime) -> io::Result<()> {
    let mut bytes = [0u8; 65537];
    let read = fill(&mut rt.stdin(), &mut bytes);
    if read.is_err() {
        let _ = eprintln!(rt; "linerun: the input cannot be read");
    }
    let n = read.unwrap_or_else(|unread| unread.bytes);
    print_two_lines(&rt, numbers(run_bytes(&bytes[..n])))
}
