// Memory words side by side.
ghost use Rattle.std.specs.Prelude.{◌≡◌};
ghost use Rattle.sets.specs.Ranges as ranges;

// Memory words from low up to, not including, high.
#[derive(Clone, Copy)]
pub struct Range {
    pub low: u64,
    pub high: u64,
}

// count memory words from an address on.
pub fn words_at(addr: u32, count: u32) -> Range
    ensures { result ≡ ranges.range addr count }
{
    let low = addr as u64;
    Range {
        low,
        high: low + count as u64,
    }
}

// No memory word.
pub fn no_words() -> Range
    ensures { result ≡ ranges.no_words }
{
    Range { low: 0, high: 0 }
}

impl Range {
    // The two ranges have a word in common.
    #[tactic(auto, unfolding(crate::specs::Ranges::overlap))]
    pub fn overlap(self, other: Range) -> bool
        ensures { result ≡ ranges.overlap self other }
    {
        (self.low < self.high)
            & (other.low < other.high)
            & (self.low < other.high)
            & (other.low < self.high)
    }
}
