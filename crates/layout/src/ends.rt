// The ends of the buffers: exact sums of base and length, in two words each.
ghost use Rattle.std.specs.Prelude.{◌≡◌, List, ℕ, ◌+◌, ◌<◌};
ghost use Rattle.std.proofs.Math.ListN as lists;
ghost use Rattle.machine.specs.Machine as machines;
ghost use Rattle.layout.specs.Layout as layout;

use crate::table::{BASE_AT, END_AT, LENGTH_AT, STATE_WORDS};
use crate::two_words::{from_words, high_word, low_word};

// The buffers of both IALUs.
pub const BUFFERS: usize = 8;

// The end of buffer i; 0 past the last.
pub fn end_of(files: &[u32; STATE_WORDS], i: usize) -> u64
    ensures { result ≡ lists.get_or (layout.state_of files.now).end i 0 }
{
    if i < BUFFERS {
        let at = END_AT + 2 * i;
        return from_words(files[at], files[at + 1]);
    }
    0
}

// From the base and length that buffer i has.
pub(crate) fn renew(words: &mut [u32], i: usize)
    requires { (i < 8) × (lists.length words.old ≡ layout.state_words) }
    ensures { (mem : List ℕ) → layout.machine_of words.new mem
        ≡ machines.renew i (layout.machine_of words.old mem) }
{
    let end = words[BASE_AT + i] as u64 + words[LENGTH_AT + i] as u64;
    let at = END_AT + 2 * i;
    words[at] = low_word(end);
    words[at + 1] = high_word(end);
}

// All ends, whatever they were.
pub fn put_right(files: &mut [u32; STATE_WORDS])
    ensures { (mem : List ℕ) → layout.machine_of files.new mem
        ≡ machines.put_right (layout.machine_of files.old mem) }
{
    for i in 0..BUFFERS {
        renew(files, i);
    }
}
