// A load through a data alignment buffer: four words of R from two quads, the one that the buffer held and the one that holds the index.
ghost use Rattle.std.specs.Prelude.{◌≡◌, List, ℕ, ◌%◌};
ghost use Rattle.word.specs.Addresses.{circular};
ghost use Rattle.machine.specs.Machine.{EndsTrue};
ghost use Rattle.machine.specs.Fetches.{values, puts};
ghost use Rattle.instructions.specs.Held as held;
ghost use Rattle.instructions.specs.Fetching as fetching;
ghost use Rattle.instructions.specs.Storing as storing;
ghost use Rattle.layout.specs.Layout.{machine_of, state_of};

use crate::fetch::{HELD_WORDS, INDEX, MODIFIER, MOVED, OLD_QUAD, hold};
use crate::ialu_fetch::{buffer, register};
use crate::positions::{after, in_block, in_four};
use bits::select::select;
use layout::span::{get, load, put};
use layout::table::{RegisterFile, STATE_WORDS, ialu_file};
use layout::two_words::{high_word, low_word};
use slots::conditional_slot::QUAD;
use word::circular::{CircularBuffer, circular};
use word::ialu::quad_at;

pub(crate) fn fetch_dab_load<'a, 'b>(
    ialu: u32,
    block: u32,
    first: u32,
    files: &'a [u32; STATE_WORDS],
    memory: &'b [u32],
) -> [u32; HELD_WORDS]
    requires { EndsTrue (state_of files.now) }
    ensures { result ≡ values (fetching.fetch_dab_load ialu block first)
        (machine_of files.now memory.now) }
{
    let x = register(ialu, first, files);
    let b = buffer(true, ialu, first, files);
    let [c, d, e, f] = load::<4>(memory, after(quad_at(x), 0));
    let [o, p, q, r] = get::<4>(files, RegisterFile::Dab, in_four(block, 0, 0));
    let end_low = low_word(b.end);
    let end_high = high_word(b.end);
    hold(&[
        x, QUAD, b.base, b.length, c, d, e, f, end_low, end_high, o, p, q, r,
    ])
}

// Four words of the old quad and then the new one, from the position of the index in its quad on.
fn delivered(v: [u32; HELD_WORDS]) -> [u32; 4]
    ensures { result ≡ storing.delivered (held.index v % 4) (held.old_quad v) (held.quad v) }
{
    let words = [
        v[OLD_QUAD],
        v[OLD_QUAD + 1],
        v[OLD_QUAD + 2],
        v[OLD_QUAD + 3],
        v[MOVED],
        v[MOVED + 1],
        v[MOVED + 2],
        v[MOVED + 3],
    ];
    let p = (v[INDEX] % 4) as usize;
    [words[p], words[p + 1], words[p + 2], words[p + 3]]
}

pub(crate) fn store_dab_load(
    ialu: u32,
    block: u32,
    target: u32,
    first: u32,
    v: [u32; HELD_WORDS],
    buffer: CircularBuffer,
    files: &mut [u32; STATE_WORDS],
)
    ensures { (mem : List ℕ) → machine_of files.new mem
        ≡ puts (storing.store_dab_load ialu block target first (held.index v % 4)
        (circular buffer.base buffer.length (held.index v) (held.modifier v)).value (held.old_quad v) (held.quad v))
        (machine_of files.old mem) }
{
    let words = delivered(v);
    put(
        4,
        files,
        RegisterFile::R,
        in_block(block, target, 0),
        &words,
    );
    let quad = &v[MOVED..MOVED + 4];
    put(4, files, RegisterFile::Dab, in_four(block, 0, 0), quad);
    let index = circular(buffer, v[INDEX], v[MODIFIER]).value;
    let n = select(first == 31, 0, 1);
    put(n, files, ialu_file(ialu), after(first, 0), &[index]);
}
