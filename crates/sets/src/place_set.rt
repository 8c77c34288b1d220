// A set of register places as four words of bits.
ghost use Rattle.std.specs.Prelude.{◌≡◌};
ghost use Rattle.sets.specs.PlaceSets as sets;

// R; TR; J and K; THR, base and length registers, flag groups and words of data alignment buffers.
#[derive(Clone, Copy)]
pub struct PlaceSet {
    pub r: u64,
    pub tr: u64,
    pub ialu: u64,
    pub rest: u64,
}

// count bits of a word, from a bit on.
pub fn bits_at(bit: u64, count: u32) -> u64
    ensures { result ≡ sets.bits_at bit count }
{
    ((1u64 << (count % 64)) - 1) << (bit % 64)
}

// count registers of X or Y, of J or K, from number i on.
pub fn side_bits(side: u32, i: u32, count: u32) -> u64
    ensures { result ≡ sets.side_bits side i count }
{
    bits_at(32 * (side as u64) + i as u64, count)
}

// count registers of four a side, of the file whose first bit is given.
pub fn four_bits(from: u32, side: u32, i: u32, count: u32) -> u64
    ensures { result ≡ sets.four_bits from side i count }
{
    bits_at(from as u64 + (4 * (side as u64) + i as u64), count)
}

pub fn words(r: u64, tr: u64, ialu: u64, rest: u64) -> PlaceSet
    ensures { result ≡ sets.words r tr ialu rest }
{
    PlaceSet { r, tr, ialu, rest }
}

impl PlaceSet {
    #[tactic(auto, unfolding(crate::specs::PlaceSets::joined))]
    pub fn join(self, other: PlaceSet) -> PlaceSet
        ensures { result ≡ sets.joined self other }
    {
        PlaceSet {
            r: self.r | other.r,
            tr: self.tr | other.tr,
            ialu: self.ialu | other.ialu,
            rest: self.rest | other.rest,
        }
    }

    // The two sets have a place in common.
    #[tactic(auto, unfolding(crate::specs::PlaceSets::meets))]
    pub fn meets(self, other: PlaceSet) -> bool
        ensures { result ≡ sets.meets self other }
    {
        ((self.r & other.r)
            | (self.tr & other.tr)
            | (self.ialu & other.ialu)
            | (self.rest & other.rest))
            != 0
    }
}
