// Indices into the register files and memory. Each is below 2^40, whatever the slot's words are.
ghost use Rattle.std.specs.Prelude.{◌≡◌, ◌+◌, ◌*◌, ◌<◌, ltb};
ghost use Rattle.bits.specs.Pick.{pick};
ghost use Rattle.machine.specs.Indices.{past};

use bits::select::select;

// R or TR number i of a block, and the k-th after it.
pub(crate) fn in_block(block: u32, i: u32, k: u32) -> usize
    ensures { (result ≡ past (32 * block + i) k) × (result < 1099511627776) }
{
    32 * (block as usize) + i as usize + k as usize
}

// THR number i of a block, or base or length register i of an IALU, and the k-th after it.
pub(crate) fn in_four(side: u32, i: u32, k: u32) -> usize
    ensures { (result ≡ past (4 * side + i) k) × (result < 1099511627776) }
{
    4 * (side as usize) + i as usize + k as usize
}

// The k-th after i, an IALU register or a memory word.
pub(crate) fn after(i: u32, k: u32) -> usize
    ensures { (result ≡ past i k) × (result < 1099511627776) }
{
    i as usize + k as usize
}

// The flag group of a unit.
pub(crate) fn flag_group(unit: u32, side: u32) -> usize
    ensures { result ≡ unit + side }
{
    unit as usize + side as usize
}

// Register n of the file of an access, and the k-th after it.
pub(crate) fn in_file(file: u32, n: u32, k: u32) -> usize
    ensures { (result ≡ past (pick (ltb file 2) (32 * file) 0 + n) k) × (result < 1099511627776) }
{
    in_block(select(file < 2, file, 0), n, k)
}
