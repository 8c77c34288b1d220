// Writing a piece at a time, with a failed write told once, at the end.
#![tactic(auto)]

ghost use Rattle.std.specs.Prelude.{◌≡◌, OnOk, OnErr, IsOk, IfSome};
ghost use Rattle.std.specs.Io.KnownBytes.{Appends};

use std::fmt::Display;
use std::io::{Result, Write};

// A writer, and how its writes went: behind one that failed nothing more is written.
#[derive(Drop)]
pub struct Output<W> {
    pub to: W,
    pub done: Result<()>,
}

impl<W: Write> Output<W> {
    pub fn new(to: W) -> Output<W>
        ensures writer { result.to ≡ to }
        ensures nothing_failed { IsOk result.done }
    {
        Output { to, done: Ok(()) }
    }

    // Bytes as they are, text or not.
    pub fn tell(&mut self, bytes: &[u8])
        ensures told { OnOk self.new.done (IsOk self.old.done
            × Appends (W.contents self.old.to) (W.contents self.new.to) bytes.now) }
        ensures stopped { OnErr self.old.done (self.new ≡ self.old) }
    {
        if self.done.is_ok() {
            self.done = self.to.write_all(bytes);
        }
    }

    // Text; of a number its digits.
    pub fn print<D: Display + Drop>(&mut self, text: D)
        ensures told { OnOk self.new.done (IsOk self.old.done × IfSome (D.output text)
            (Appends (W.contents self.old.to) (W.contents self.new.to))) }
        ensures stopped { OnErr self.old.done (self.new ≡ self.old) }
    {
        if self.done.is_ok() {
            self.done = self.to.write_fmt(text);
        }
    }

    // Whether all was written.
    pub fn finish(self) -> Result<()>
    where
        W: Drop,
        ensures { result ≡ self.done }
    {
        self.done
    }
}

#[cfg(test)]
mod tests;
