// What the ALU, shifter, CLU and transfer slots of a block fetch: a function for each family, whose clause names its definition.
ghost use Rattle.std.specs.Prelude.{◌≡◌, List, ℕ};
ghost use Rattle.machine.specs.Fetches.{values};
ghost use Rattle.instructions.specs.Fetching as spec;
ghost use Rattle.instructions.specs.FetchedSlots.{held_by_despread};
ghost use Rattle.layout.specs.Layout.{machine_of};

use crate::fetch::{HELD_WORDS, hold};
use crate::positions::{flag_group, in_block, in_four};
use layout::cell::{read, read_if};
use layout::span::get;
use layout::table::{RegisterFile, STATE_WORDS};
use slots::slot::Slot;

pub(crate) fn fetch_alu(
    block: u32,
    op: u32,
    first: u32,
    second: u32,
    files: &[u32; STATE_WORDS],
) -> [u32; HELD_WORDS]
    ensures { (mem : List ℕ) → result
        ≡ values (spec.fetch_alu block op first second) (machine_of files.now mem) }
{
    let x = read(files, RegisterFile::R, in_block(block, first, 0));
    let y = read_if(
        !((8 <= op) & (op <= 10)),
        files,
        RegisterFile::R,
        in_block(block, second, 0),
    );
    hold(&[x, y])
}

pub(crate) fn fetch_shifter(
    block: u32,
    op: u32,
    first: u32,
    second: u32,
    files: &[u32; STATE_WORDS],
) -> [u32; HELD_WORDS]
    ensures { (mem : List ℕ) → result
        ≡ values (spec.fetch_shifter block op first second) (machine_of files.now mem) }
{
    let x = read(files, RegisterFile::R, in_block(block, first, 0));
    let y = read_if(
        !(8 <= op),
        files,
        RegisterFile::R,
        in_block(block, second, 0),
    );
    hold(&[x, y])
}

pub(crate) fn fetch_trellis(
    block: u32,
    first: u32,
    second: u32,
    quad: u32,
    files: &[u32; STATE_WORDS],
) -> [u32; HELD_WORDS]
    ensures { (mem : List ℕ) → result
        ≡ values (spec.fetch_trellis block first second quad) (machine_of files.now mem) }
{
    let [x, x2] = get::<2>(files, RegisterFile::TR, in_block(block, first, 0));
    let [y, y2] = get::<2>(files, RegisterFile::TR, in_block(block, second, 0));
    let [a, b, c, d] = get::<4>(files, RegisterFile::R, in_block(block, quad, 0));
    let old = read(files, RegisterFile::Flags, flag_group(4, block));
    hold(&[x, x2, y, y2, a, b, c, d, old])
}

pub(crate) fn fetch_tmax(
    block: u32,
    first: u32,
    second: u32,
    files: &[u32; STATE_WORDS],
) -> [u32; HELD_WORDS]
    ensures { (mem : List ℕ) → result
        ≡ values (spec.fetch_tmax block first second) (machine_of files.now mem) }
{
    let x = read(files, RegisterFile::TR, in_block(block, first, 0));
    let y = read(files, RegisterFile::TR, in_block(block, second, 0));
    let old = read(files, RegisterFile::Flags, flag_group(4, block));
    hold(&[x, 0, y, 0, 0, 0, 0, 0, old])
}

// The slot as a whole: its six fields as parameters would be no plainer.
pub(crate) fn fetch_despread(
    slot: Slot,
    loaded: bool,
    files: &[u32; STATE_WORDS],
) -> [u32; HELD_WORDS]
    ensures { (mem : List ℕ) → result ≡ held_by_despread loaded (machine_of files.now mem) slot }
{
    let Slot::Despread(block, op, target, first, pair, _) = slot else {
        return [0; HELD_WORDS];
    };
    let x = read(files, RegisterFile::TR, in_block(block, target, 0));
    let x2 = read_if(
        op == 13,
        files,
        RegisterFile::TR,
        in_block(block, target, 1),
    );
    let y = read(files, RegisterFile::THR, in_four(block, pair, 0));
    let y2 = read_if(!loaded, files, RegisterFile::THR, in_four(block, pair, 1));
    let [a, b, c, d] = get::<4>(files, RegisterFile::R, in_block(block, first, 0));
    let old = read(files, RegisterFile::Flags, flag_group(4, block));
    hold(&[x, x2, y, y2, a, b, c, d, old])
}

pub(crate) fn fetch_transfer(
    block: u32,
    op: u32,
    first: u32,
    files: &[u32; STATE_WORDS],
) -> [u32; HELD_WORDS]
    ensures { (mem : List ℕ) → result
        ≡ values (spec.fetch_transfer block op first) (machine_of files.now mem) }
{
    let x = read_if(op != 3, files, RegisterFile::R, in_block(block, first, 0));
    let x2 = read_if(op == 2, files, RegisterFile::R, in_block(block, first, 1));
    let y = read_if(op == 3, files, RegisterFile::TR, in_block(block, first, 0));
    hold(&[x, x2, y])
}
