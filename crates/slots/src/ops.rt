// What an op alone tells of its slot.
ghost use Rattle.std.specs.Prelude.{◌≡◌};
ghost use Rattle.bits.specs.Ops as ops;

use bits::select::select;

// IALU ops 19, 20, 22 store to memory; the other accesses load.
pub fn is_store(op: u32) -> bool
    ensures { result ≡ ops.is_store op }
{
    matches!(op, 19 | 20 | 22)
}

// IALU ops 18 and 20, before-modify, leave the index as it is.
pub fn keeps_index(op: u32) -> bool
    ensures { result ≡ ops.keeps_index op }
{
    matches!(op, 18 | 20)
}

// IALU ops with circular addressing.
pub fn is_circular(op: u32) -> bool
    ensures { result ≡ ops.is_circular op }
{
    matches!(op, 13 | 21 | 22)
}

// How many TRs a DESPREAD stores.
pub fn despread_words(op: u32) -> u32
    ensures { result ≡ ops.despread_words op }
{
    select(op == 13, 2, 1)
}

// How many old words a DESPREAD hands to R.
pub fn old_words(op: u32) -> u32
    ensures { result ≡ ops.old_words op }
{
    select(op == 11, 0, despread_words(op))
}
