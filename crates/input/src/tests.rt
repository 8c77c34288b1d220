// Readers that give their bytes in pieces, and fail where no byte is left to them.
use crate::{Unread, fill};
use std::io::{self, ErrorKind, Read};

// Two bytes a read; behind the last a read fails, or the input ends.
#[derive(Drop)]
struct Pieces<'a> {
    bytes: &'a [u8],
    fails: bool,
}

impl Read for Pieces<'_> {
    fn read(&mut self, buf: &mut [u8]) -> io::Result<usize> {
        if self.bytes.is_empty() {
            if self.fails {
                return Err(ErrorKind::Interrupted.into());
            }
            return Ok(0);
        }
        let n = 2.min(self.bytes.len());
        let mut part = &self.bytes[..n];
        let got = part.read(buf)?;
        self.bytes = &self.bytes[got..];
        Ok(got)
    }
}

// How a call ends that has read so many bytes up to the last.
fn end(bytes: usize, fails: bool) -> Result<usize, Unread> {
    if fails {
        return Err(Unread { bytes });
    }
    Ok(bytes)
}

#[test]
fn tells_a_failed_read_from_the_end(rt: HostRuntime) {
    for fails in [false, true] {
        let mut from = Pieces {
            bytes: &[1, 2, 3, 4, 5],
            fails,
        };
        let mut buffer = [9u8; 3];
        let first = fill(&mut from, &mut buffer);
        assert!(rt; first == Ok(3) && buffer == [1, 2, 3]);
        let rest = fill(&mut from, &mut buffer);
        assert!(rt; rest == end(2, fails) && buffer == [4, 5, 3]);
        let none = fill(&mut from, &mut buffer);
        assert!(rt; none == end(0, fails) && buffer == [4, 5, 3]);
        let nothing = fill(&mut from, &mut buffer[..0]);
        assert!(rt; nothing == Ok(0));
    }
}
