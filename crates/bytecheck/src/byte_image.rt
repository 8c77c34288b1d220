// The check of an image's bytes, by way of an array of words.
ghost use Rattle.std.specs.Prelude.{◌≡◌, ◌*◌, ◌≤◌, length};
ghost use Rattle.image.specs.Bytes.{words_of_bytes};
ghost use Rattle.image.specs.Check.{check_of};
ghost use Rattle.bytecheck.specs.ByteCheck.{check_of_bytes};

use image::bytes::{bytes_refusal, load_words};
use image::check::{MAX_WORDS, check};

// The words of a few lines, of a short image and of one of middle length.
const LEAST_WORDS: usize = 64;

const FEW_WORDS: usize = 256;

const SOME_WORDS: usize = 2048;

// The code for an image's bytes by way of so many words. It is not put into its caller, so that each array has a frame of its own.
#[inline(never)]
fn code_by<const WORDS: usize>(image: &[u8]) -> u32
    requires room { length image.now ≤ 4 * WORDS }
    requires memory { WORDS ≤ MAX_WORDS }
    ensures { result ≡ (check_of (words_of_bytes image.now)).code }
{
    let mut words = [0u32; WORDS];
    load_words(image, &mut words);
    check(&words[..image.len() / 4]).code
}

// By the first array with room for the image: filling 64 KiB with zeros takes longer than the check of a short image.
fn code_of(image: &[u8]) -> u32
    requires { length image.now ≤ 4 * MAX_WORDS }
    ensures { result ≡ (check_of (words_of_bytes image.now)).code }
{
    if image.len() <= 4 * LEAST_WORDS {
        return code_by::<LEAST_WORDS>(image);
    }
    if image.len() <= 4 * FEW_WORDS {
        return code_by::<FEW_WORDS>(image);
    }
    if image.len() <= 4 * SOME_WORDS {
        return code_by::<SOME_WORDS>(image);
    }
    code_by::<MAX_WORDS>(image)
}

// The code for an image's bytes; over 65,536 of them is 1, else a broken word 2.
pub fn check_bytes(image: &[u8]) -> u32
    ensures { result ≡ check_of_bytes image.now }
{
    if let Err(refusal) = bytes_refusal(image) {
        return refusal.code();
    }
    code_of(image)
}
