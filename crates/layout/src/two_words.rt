// Numbers of two words, low and high. A cast that cuts bits off is refused, so the low word is a remainder.
ghost use Rattle.std.specs.Prelude.{◌≡◌};
ghost use Rattle.layout.specs.Layout as layout;

pub fn low_word(n: u64) -> u32
    ensures { result ≡ layout.low_word n }
{
    (n % 0x1_0000_0000) as u32
}

pub fn high_word(n: u64) -> u32
    ensures { result ≡ layout.high_word n }
{
    (n / 0x1_0000_0000) as u32
}

pub fn from_words(low: u32, high: u32) -> u64
    ensures { result ≡ layout.from_words low high }
{
    low as u64 + 0x1_0000_0000 * high as u64
}
