// What the IALU slots fetch.
ghost use Rattle.std.specs.Prelude.{◌≡◌, List, ℕ};
ghost use Rattle.machine.specs.Machine.{EndsTrue};
ghost use Rattle.machine.specs.Fetches.{values};
ghost use Rattle.instructions.specs.Fetching as spec;
ghost use Rattle.layout.specs.Layout.{machine_of, state_of};
ghost use Rattle.instructions.specs.FetchedSlots.{held_by_access};
ghost use Rattle.instructions.specs.Operands as operands;

use crate::fetch::{HELD_WORDS, hold};
use crate::positions::{after, in_file, in_four};
use layout::cell::{load, read, read_if};
use layout::ends::end_of;
use layout::table::{RegisterFile, STATE_WORDS, access_file, ialu_file};
use layout::two_words::{high_word, low_word};
use slots::ops::{is_circular, is_store};
use slots::slot::Slot;
use word::circular::CircularBuffer;
use word::ialu::address;

pub(crate) fn register(ialu: u32, i: u32, files: &[u32; STATE_WORDS]) -> u32
    ensures { (mem : List ℕ) → result ≡ operands.register ialu i (machine_of files.now mem) }
{
    read_if(i != 31, files, ialu_file(ialu), after(i, 0))
}

fn operand(used: bool, ialu: u32, second: u32, imm: u32, files: &[u32; STATE_WORDS]) -> u32
    ensures { (mem : List ℕ) → result
        ≡ operands.operand used ialu second imm (machine_of files.now mem) }
{
    if second == 32 {
        return imm;
    }
    if used {
        return register(ialu, second, files);
    }
    0
}

// The circular buffer with the number of an index. Its end is read, not summed.
pub(crate) fn buffer(
    used: bool,
    ialu: u32,
    first: u32,
    files: &[u32; STATE_WORDS],
) -> CircularBuffer
    requires { EndsTrue (state_of files.now) }
    ensures { (mem : List ℕ) → (result.base ≡ operands.base_read used ialu first (machine_of files.now mem))
        × (result.length ≡ operands.length_read used ialu first (machine_of files.now mem)) }
{
    let i = in_four(ialu, first, 0);
    let length = read_if(used, files, RegisterFile::Length, i);
    if length == 0 {
        return CircularBuffer {
            base: 0,
            length: 0,
            end: 0,
        };
    }
    CircularBuffer {
        base: read(files, RegisterFile::Base, i),
        length,
        end: end_of(files, i),
    }
}

// The registers or memory words that an access moves: file and number or addr, both known, by stores.
#[derive(Clone, Copy)]
struct Moved {
    width: u32,
    stores: bool,
    file: u32,
    number: u32,
    addr: u32,
}

fn moved_word<'a, 'b>(q: u32, x: Moved, files: &'a [u32; STATE_WORDS], memory: &'b [u32]) -> u32
    ensures { result ≡ operands.moved_word q x.width x.stores x.file x.number x.addr
        (machine_of files.now memory.now) }
{
    if q < x.width {
        if x.stores {
            return read(files, access_file(x.file), in_file(x.file, x.number, q));
        }
        return load(memory, after(x.addr, q));
    }
    0
}

pub(crate) fn fetch_arith(
    ialu: u32,
    op: u32,
    first: u32,
    second: u32,
    imm: u32,
    files: &[u32; STATE_WORDS],
) -> [u32; HELD_WORDS]
    requires { EndsTrue (state_of files.now) }
    ensures { (mem : List ℕ) → result
        ≡ values (spec.fetch_arith ialu op first second imm) (machine_of files.now mem) }
{
    let x = register(ialu, first, files);
    let y = operand(!((8 <= op) & (op <= 12)), ialu, second, imm, files);
    let b = buffer(is_circular(op), ialu, first, files);
    let end_low = low_word(b.end);
    let end_high = high_word(b.end);
    hold(&[x, y, b.base, b.length, 0, 0, 0, 0, end_low, end_high])
}

pub(crate) fn fetch_buffer(ialu: u32, first: u32, files: &[u32; STATE_WORDS]) -> [u32; HELD_WORDS]
    ensures { (mem : List ℕ) → result
        ≡ values (spec.fetch_buffer ialu first) (machine_of files.now mem) }
{
    let x = register(ialu, first, files);
    hold(&[x])
}

// The slot as a whole: its eight fields as parameters would be no plainer.
pub(crate) fn fetch_access<'a, 'b>(
    slot: Slot,
    files: &'a [u32; STATE_WORDS],
    memory: &'b [u32],
) -> [u32; HELD_WORDS]
    requires { EndsTrue (state_of files.now) }
    ensures { result ≡ held_by_access (machine_of files.now memory.now) slot }
{
    let Slot::Access(ialu, op, width, file, number, first, second, imm) = slot else {
        return [0; HELD_WORDS];
    };
    let x = register(ialu, first, files);
    let y = operand(true, ialu, second, imm, files);
    let b = buffer(is_circular(op), ialu, first, files);
    let moved = Moved {
        width,
        stores: is_store(op),
        file,
        number,
        addr: address(op, x, y),
    };
    let c = moved_word(0, moved, files, memory);
    let d = moved_word(1, moved, files, memory);
    let e = moved_word(2, moved, files, memory);
    let f = moved_word(3, moved, files, memory);
    let end_low = low_word(b.end);
    let end_high = high_word(b.end);
    hold(&[x, y, b.base, b.length, c, d, e, f, end_low, end_high])
}
