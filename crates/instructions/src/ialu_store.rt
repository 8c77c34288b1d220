// What the IALU slots store.
ghost use Rattle.std.specs.Prelude.{◌≡◌, true, List, ℕ};
ghost use Rattle.word.specs.Ialu as ialus;
ghost use Rattle.machine.specs.Fetches.{puts};
ghost use Rattle.instructions.specs.Held as held;
ghost use Rattle.instructions.specs.Storing as spec;
ghost use Rattle.instructions.specs.FetchedSlots.{store_by_access};
ghost use Rattle.layout.specs.Layout.{machine_of};

use crate::fetch::{HELD_WORDS, INDEX, MODIFIER, MOVED, circular_held};
use crate::positions::{after, flag_group, in_file, in_four};
use bits::select::select;
use layout::cell::write;
use layout::span::{put, save};
use layout::table::{RegisterFile, STATE_WORDS, access_file, buffer_file, ialu_file};
use slots::ops::{is_store, keeps_index};
use slots::slot::Slot;
use word::circular::CircularBuffer;
use word::ialu::{address, updated};

pub(crate) fn store_arith(
    ialu: u32,
    op: u32,
    target: u32,
    v: [u32; HELD_WORDS],
    buffer: CircularBuffer,
    files: &mut [u32; STATE_WORDS],
)
    ensures { (mem : List ℕ) → machine_of files.new mem
        ≡ puts (spec.store_arith ialu target
        (ialus.ialu op (held.index v) (held.modifier v) buffer.base buffer.length))
        (machine_of files.old mem) }
{
    let o = word::ialu::ialu(op, v[INDEX], v[MODIFIER], buffer);
    let n = select(target == 31, 0, 1);
    put(n, files, ialu_file(ialu), after(target, 0), &[o.value]);
    write(files, RegisterFile::Flags, flag_group(6, ialu), o.flags);
}

pub(crate) fn store_buffer(
    ialu: u32,
    op: u32,
    target: u32,
    v: [u32; HELD_WORDS],
    files: &mut [u32; STATE_WORDS],
)
    ensures { (mem : List ℕ) → machine_of files.new mem
        ≡ puts (spec.store_buffer ialu op target (held.first v)) (machine_of files.old mem) }
{
    write(files, buffer_file(op), in_four(ialu, target, 0), v[0]);
}

// The slot as a whole: its eight fields as parameters would be no plainer.
pub(crate) fn store_access(
    slot: Slot,
    v: [u32; HELD_WORDS],
    files: &mut [u32; STATE_WORDS],
    memory: &mut [u32],
)
    requires { held.end_held slot v ≡ true }
    ensures { machine_of files.new memory.new
        ≡ puts (store_by_access v slot) (machine_of files.old memory.old) }
{
    let Slot::Access(ialu, op, width, file, number, first, _, _) = slot else {
        return;
    };
    let stores = is_store(op);
    let at = in_file(file, number, 0);
    let n = select(stores, 0, width);
    put(n, files, access_file(file), at, &v[MOVED..MOVED + 4]);
    let index = updated(op, v[INDEX], v[MODIFIER], circular_held(v));
    let n = select(keeps_index(op), 0, select(first == 31, 0, 1));
    put(n, files, ialu_file(ialu), after(first, 0), &[index]);
    let a = address(op, v[INDEX], v[MODIFIER]);
    let n = select(stores, width, 0);
    save(n, memory, after(a, 0), &v[MOVED..MOVED + 4]);
}
