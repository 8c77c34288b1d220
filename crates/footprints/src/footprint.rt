// The places that a slot reads, or stores: registers and flag groups as a set, memory words as a range.
ghost use Rattle.std.specs.Prelude.{◌≡◌};
ghost use Rattle.footprints.specs.Footprints as footprints;

use sets::place_set::{PlaceSet, bits_at};
use sets::range::{Range, no_words};

// The first bit of the flag groups in their word.
const FLAGS: u64 = 24;

#[derive(Clone, Copy)]
pub struct Footprint {
    pub set: PlaceSet,
    pub words: Range,
}

impl Footprint {
    // Two slots have a place in common.
    #[tactic(auto, unfolding(crate::specs::Footprints::footprints_meet))]
    pub fn meets(self, other: Footprint) -> bool
        ensures { result ≡ footprints.footprints_meet self other }
    {
        self.set.meets(other.set) | self.words.overlap(other.words)
    }
}

// A footprint of registers and flag groups alone. No method: `Footprint::registers` at its twelve calls reads no plainer.
pub fn registers(set: PlaceSet) -> Footprint
    ensures { result ≡ footprints.registers set }
{
    let words = no_words();
    Footprint { set, words }
}

// The flag group of a unit, by the unit's number for X or J less 1.
pub fn flag_bits(unit: u32, side: u32) -> u64
    ensures { result ≡ footprints.flag_bits unit side }
{
    bits_at(FLAGS + (unit as u64 + side as u64), 1)
}
