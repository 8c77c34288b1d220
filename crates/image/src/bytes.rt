// An image as bytes: little-endian words.
ghost use Rattle.std.specs.Prelude.{◌≡◌};
ghost use Rattle.image.specs.Bytes as spec;

use crate::check::MAX_WORDS;

// Why bytes are no image: too many of them, or a broken word.
#[derive(Clone, Copy, Debug, PartialEq, Eq)]
pub enum BytesRefusal {
    TooLong,
    BrokenWord,
}

impl BytesRefusal {
    pub fn code(self) -> u32
        ensures { result ≡ spec.refusal_code self }
    {
        match self {
            BytesRefusal::TooLong => 1,
            BytesRefusal::BrokenWord => 2,
        }
    }
}

#[tactic(auto, unfolding(crate::specs::Bytes::bytes_refusal))]
pub fn bytes_refusal(bytes: &[u8]) -> Result<(), BytesRefusal>
    ensures { spec.code_of result ≡ spec.bytes_refusal bytes.now }
{
    if 4 * MAX_WORDS < bytes.len() {
        return Err(BytesRefusal::TooLong);
    }
    if bytes.len() % 4 != 0 {
        return Err(BytesRefusal::BrokenWord);
    }
    Ok(())
}

// The words of the bytes, from the front of words on; what does not fit is left out, and the rest of words is kept.
pub fn load_words(bytes: &[u8], words: &mut [u32])
    ensures { words.new ≡ spec.loaded bytes.now words.old }
{
    for i in 0..words.len().min(bytes.len() / 4) {
        let j = 4 * i;
        words[i] = u32::from_le_bytes([bytes[j], bytes[j + 1], bytes[j + 2], bytes[j + 3]]);
    }
}
