// The memory words that a slot stores.
ghost use Rattle.std.specs.Prelude.{◌≡◌};
ghost use Rattle.instructions.specs.StoredWords.{range_stored};

use crate::fetch::{HELD_WORDS, INDEX, MODIFIER};
use bits::select::select;
use sets::range::{Range, no_words, words_at};
use slots::ops::is_store;
use slots::slot::Slot;
use word::ialu::address;

// From the words v that the slot holds.
pub fn words_stored(slot: Slot, v: [u32; HELD_WORDS]) -> Range
    ensures { result ≡ range_stored slot v }
{
    let Slot::Access(_, op, width, _, _, _, _, _) = slot else {
        return no_words();
    };
    let addr = address(op, v[INDEX], v[MODIFIER]);
    words_at(addr, select(is_store(op), width, 0))
}
