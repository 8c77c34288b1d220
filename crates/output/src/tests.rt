// A writer over an array, whose n-th write fails and whose others do not.
use crate::Output;
use std::io::{ErrorKind, Result, Write};

#[derive(Drop)]
struct Room<'a> {
    left: &'a mut [u8],
    writes: usize,
    failing: usize,
}

impl Write for Room<'_> {
    fn write(&mut self, buf: &[u8]) -> Result<usize> {
        self.writes = self.writes.saturating_add(1);
        if self.writes == self.failing {
            return Err(ErrorKind::StorageFull.into());
        }
        self.left.write(buf)
    }

    fn flush(&mut self) -> Result<()> {
        Ok(())
    }
}

#[test]
fn writes_nothing_behind_a_failed_write(rt: HostRuntime) {
    for (failing, written) in [(0, b"ab7!"), (1, b"...."), (2, b"ab.."), (3, b"ab7.")] {
        let mut text = [b'.'; 4];
        let mut out = Output::new(Room {
            left: &mut text,
            writes: 0,
            failing,
        });
        out.tell(b"ab");
        out.print(7);
        out.tell(b"");
        out.print("!");
        assert!(rt; out.finish().is_ok() == (failing == 0));
        assert!(rt; text == *written, "{failing}");
    }
}
