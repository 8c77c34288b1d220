// What the ALU, shifter, CLU and transfer slots of a block store: a function for each family, whose clause names its definition.
ghost use Rattle.std.specs.Prelude.{◌≡◌, List, ℕ};
ghost use Rattle.word.specs.Alu as alus;
ghost use Rattle.word.specs.Shifter as shifters;
ghost use Rattle.machine.specs.Fetches.{puts};
ghost use Rattle.instructions.specs.Held as held;
ghost use Rattle.instructions.specs.Storing as spec;
ghost use Rattle.instructions.specs.FetchedSlots.{store_by_despread};
ghost use Rattle.layout.specs.Layout.{machine_of};

use crate::fetch::{HELD_WORDS, OLD_FLAGS};
use crate::positions::{flag_group, in_block, in_four};
use bits::select::select;
use clu::despread::{Pair, shift_pair};
use clu::unit::{CluOutcome, clu};
use layout::cell::write;
use layout::span::put;
use layout::table::{RegisterFile, STATE_WORDS};
use slots::ops::{despread_words, old_words};
use slots::slot::Slot;
use word::alu::alu;
use word::shifter::shifter;

pub(crate) fn store_alu(
    block: u32,
    op: u32,
    target: u32,
    v: [u32; HELD_WORDS],
    files: &mut [u32; STATE_WORDS],
)
    ensures { (mem : List ℕ) → machine_of files.new mem
        ≡ puts (spec.store_alu block target (alus.alu op (held.first v) (held.second v)))
        (machine_of files.old mem) }
{
    let o = alu(op, v[0], v[1]);
    write(files, RegisterFile::R, in_block(block, target, 0), o.value);
    write(files, RegisterFile::Flags, flag_group(0, block), o.flags);
}

pub(crate) fn store_shifter(
    block: u32,
    op: u32,
    target: u32,
    v: [u32; HELD_WORDS],
    files: &mut [u32; STATE_WORDS],
)
    ensures { (mem : List ℕ) → machine_of files.new mem
        ≡ puts (spec.store_shifter block op target (shifters.shifter op (held.first v) (held.second v)))
        (machine_of files.old mem) }
{
    let o = shifter(op, v[0], v[1]);
    let n = select(op == 7, 0, 1);
    let at = in_block(block, target, 0);
    put(n, files, RegisterFile::R, at, &[o.value]);
    write(files, RegisterFile::Flags, flag_group(2, block), o.flags);
}

// The CLU's op on two pairs, the quad and the old flags.
fn clu_of(op: u32, v: [u32; HELD_WORDS]) -> CluOutcome
    ensures { result ≡ spec.clu_of op v }
{
    let x = Pair {
        low: v[0],
        high: v[1],
    };
    let y = Pair {
        low: v[2],
        high: v[3],
    };
    clu(op, x, y, [v[4], v[5], v[6], v[7]], v[OLD_FLAGS])
}

pub(crate) fn store_trellis(
    block: u32,
    op: u32,
    target: u32,
    v: [u32; HELD_WORDS],
    files: &mut [u32; STATE_WORDS],
)
    ensures { (mem : List ℕ) → machine_of files.new mem
        ≡ puts (spec.store_trellis block target (spec.clu_of op v)) (machine_of files.old mem) }
{
    let o = clu_of(op, v);
    let at = in_block(block, target, 0);
    put(2, files, RegisterFile::TR, at, &[o.low, o.high]);
    write(files, RegisterFile::Flags, flag_group(4, block), o.flags);
}

pub(crate) fn store_tmax(
    block: u32,
    op: u32,
    target: u32,
    v: [u32; HELD_WORDS],
    files: &mut [u32; STATE_WORDS],
)
    ensures { (mem : List ℕ) → machine_of files.new mem
        ≡ puts (spec.store_tmax block target (spec.clu_of op v)) (machine_of files.old mem) }
{
    let o = clu_of(op, v);
    write(files, RegisterFile::R, in_block(block, target, 0), o.low);
    write(files, RegisterFile::Flags, flag_group(4, block), o.flags);
}

// The slot as a whole: its six fields as parameters would be no plainer.
pub(crate) fn store_despread(
    slot: Slot,
    loaded: bool,
    v: [u32; HELD_WORDS],
    files: &mut [u32; STATE_WORDS],
)
    ensures { (mem : List ℕ) → machine_of files.new mem
        ≡ puts (store_by_despread loaded v slot) (machine_of files.old mem) }
{
    let Slot::Despread(block, op, target, _, pair, old) = slot else {
        return;
    };
    let o = clu_of(op, v);
    let t = shift_pair(Pair {
        low: v[2],
        high: v[3],
    });
    let n = despread_words(op);
    let at = in_block(block, target, 0);
    put(n, files, RegisterFile::TR, at, &[o.low, o.high]);
    let n = old_words(op);
    let at = in_block(block, old, 0);
    put(n, files, RegisterFile::R, at, &[v[0], v[1]]);
    let n = select(loaded, 0, 2);
    let at = in_four(block, pair, 0);
    put(n, files, RegisterFile::THR, at, &[t.low, t.high]);
    write(files, RegisterFile::Flags, flag_group(4, block), o.flags);
}

pub(crate) fn store_transfer(
    block: u32,
    op: u32,
    target: u32,
    v: [u32; HELD_WORDS],
    files: &mut [u32; STATE_WORDS],
)
    ensures { (mem : List ℕ) → machine_of files.new mem
        ≡ puts (spec.store_transfer block op target (held.transfer_r v) (held.transfer_next v) (held.transfer_tr v))
        (machine_of files.old mem) }
{
    let n = select(op == 1, 1, 0);
    let at = in_block(block, target, 0);
    put(n, files, RegisterFile::TR, at, &[v[0]]);
    let n = select(op == 3, 1, 0);
    let at = in_block(block, target, 0);
    put(n, files, RegisterFile::R, at, &[v[2]]);
    let n = select(op == 2, 2, 0);
    let at = in_four(block, target, 0);
    put(n, files, RegisterFile::THR, at, &[v[0], v[1]]);
}
