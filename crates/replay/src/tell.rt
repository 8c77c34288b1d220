// What replay writes: a line for each case that differs, and the last line.
use crate::case::{Failure, RECORD_WORDS};
use crate::cases::{Span, Total};
use crate::compare::Difference;
use crate::file::Cut;
use crate::names::tell_name;
use crate::record::{FIXED_WORDS, Fault};
use input::Unread;
use output::Output;
use std::io::Write;

fn tell_length<W: Write>(out: &mut Output<W>, part: &str, n: u32) {
    out.print(format_args!("the record's {part} length {n} passes its end\n"));
}

fn tell_count<W: Write>(out: &mut Output<W>, call: &str, count: u64, n: u32) {
    out.print(format_args!(
        "the record's count of the {call}'s numbers: expected {count}, found {n}\n"
    ));
}

fn tell_words<W: Write>(out: &mut Output<W>, n: usize, against: &str, other: usize, after: &str) {
    out.print(format_args!("the record has {n} words, {against}{other}{after}\n"));
}

fn tell_fault<W: Write>(out: &mut Output<W>, case: u32, fault: Fault) {
    out.print(format_args!("case {case}: "));
    match fault {
        Fault::Short(n) => tell_words(out, n, "fewer than the ", FIXED_WORDS, " of every record"),
        Fault::Long(n) => tell_words(out, n, "more than the ", RECORD_WORDS, " that replay holds"),
        Fault::Image(n) => tell_length(out, "image", n),
        Fault::Memory(n) => tell_length(out, "memory", n),
        Fault::Orders(n) => tell_length(out, "orders", n),
        Fault::Length(n, parts) => tell_words(out, n, "and its parts have ", parts, ""),
        Fault::Check(n) => tell_count(out, "check call", 3, n),
        Fault::Plain(n) => tell_count(out, "plain run", 5, n),
        Fault::Ordered(n) => tell_count(out, "ordered run", 5, n),
    }
}

fn tell_difference<W: Write>(out: &mut Output<W>, case: u32, call: &str, d: Difference) {
    out.print(format_args!("case {case}: {call}: "));
    tell_name(out, d.at);
    out.print(format_args!(": expected {}, found {}\n", d.expected, d.found));
}

pub(crate) fn tell_verdict<W: Write>(out: &mut Output<W>, case: u32, verdict: Result<(), Failure>) {
    match verdict {
        Ok(()) => {}
        Err(Failure::Broken(fault)) => tell_fault(out, case, fault),
        Err(Failure::Check(d)) => tell_difference(out, case, "check call", d),
        Err(Failure::Plain(d)) => tell_difference(out, case, "plain run", d),
        Err(Failure::Ordered(d)) => tell_difference(out, case, "ordered run", d),
    }
}

fn tell_stop<W: Write>(out: &mut Output<W>, case: u32, text: &str) {
    out.print(format_args!("case {case}: the file {text}\n"));
}

pub(crate) fn tell_ending<W: Write>(out: &mut Output<W>, case: u32, ending: Result<(), Cut>) {
    match ending {
        Ok(()) => {}
        Err(Cut::Before) => tell_stop(out, case, "ends before its record"),
        Err(Cut::InLength) => tell_stop(out, case, "ends inside its record's length"),
        Err(Cut::InRecord) => tell_stop(out, case, "ends inside its record"),
        Err(Cut::Failed) => tell_stop(out, case, "cannot be read"),
    }
}

pub(crate) fn tell_missing<W: Write>(out: &mut Output<W>, cases: Span) {
    let Span { first, last } = cases;
    if first <= last {
        out.print(format_args!("cases {first} to {last}: not in the file\n"));
    }
}

// What was read behind the last case.
pub(crate) fn tell_rest<W: Write>(out: &mut Output<W>, rest: Result<usize, Unread>) {
    match rest {
        Err(_) => out.print("the file cannot be read behind its last case\n"),
        Ok(0) => {}
        Ok(_) => out.print("the file goes on behind its last case\n"),
    }
}

// The last line of a file that could not be read is none that tells how a whole file came out.
pub(crate) fn tell_total<W: Write>(out: &mut Output<W>, total: Result<Total, Total>) {
    match total {
        Ok(all) => out.print(format_args!("{} cases, {} differ\n", all.cases, all.differing)),
        Err(read) => out.print(format_args!(
            "{} cases replayed, {} differ; then the file could not be read\n",
            read.cases, read.differing
        )),
    }
}
