// The numbers of a text: an image's words, or what a call is given.
ghost use Rattle.std.specs.Prelude.{◌≡◌};
ghost use Rattle.std.specs.Result.{result_map_both};
ghost use Rattle.text.specs.Numbers as spec;
ghost use Rattle.text.specs.Numerals as numerals;

use crate::numerals::number;
use crate::parts::{byte_at, split};
use arrayvec::ArrayVec;

pub const ROOM: usize = 256;

// A ; only shows a reader where a slot or a line ends.
fn is_number(token: &[u8]) -> bool
    ensures { result ≡ spec.is_number token.now }
{
    !token.is_empty() && byte_at(token, 0) != b';'
}

// Adds the number that the token is; false, and nothing added, where it is none or there is no room.
fn add(words: &mut ArrayVec<u32, ROOM>, token: &[u8]) -> bool
    ensures { spec.read result words.new.items ≡ spec.longer words.old.items (numerals.number token.now) }
{
    match number(token) {
        Some(value) => words.try_push(value).is_ok(),
        None => false,
    }
}

// The numbers, as far as there is room: Ok where all were numbers and had room, else Err. One that is bad does not end the reading.
pub fn words_in(text: &[u8]) -> Result<ArrayVec<u32, ROOM>, ArrayVec<u32, ROOM>>
    ensures { result_map_both (λ words. words.items) (λ words. words.items) result ≡ spec.words_in text.now }
{
    let mut words = ArrayVec::new();
    let mut good = true;
    for token in split(text, b' ') {
        if is_number(token) {
            good &= add(&mut words, token);
        }
    }
    if good { Ok(words) } else { Err(words) }
}
