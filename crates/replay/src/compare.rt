// Two lists of words, and the first place where they differ.
ghost use Rattle.std.specs.Prelude.{◌≡◌, ◌<◌};
ghost use Rattle.replay.specs.Compare as spec;

// A number that differs: its place, the number expected, and the one found, which of steps has 64 bits.
#[derive(Clone, Copy)]
pub(crate) struct Difference {
    pub at: usize,
    pub expected: u32,
    pub found: u64,
}

pub(crate) fn differ(at: usize, expected: u32, found: u64) -> Result<(), Difference>
    ensures { result ≡ spec.differ at expected found }
{
    Err(Difference {
        at,
        expected,
        found,
    })
}

// Places are counted from start on. A word that only one of the lists has is a difference, too.
pub(crate) fn first_difference(
    start: usize,
    expected: &[u32],
    found: &[u32],
) -> Result<(), Difference>
    requires { start < 4294967296 }
    ensures { result ≡ spec.difference_from start expected.now found.now }
{
    for (i, e) in expected.iter().enumerate() {
        if i == found.len() {
            return differ(start + i, *e, 0);
        }
        let f = found[i];
        if *e != f {
            return differ(start + i, *e, u64::from(f));
        }
    }
    let n = expected.len();
    if n < found.len() {
        return differ(start + n, 0, u64::from(found[n]));
    }
    Ok(())
}
