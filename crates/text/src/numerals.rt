// Numbers in a text: base ten, also negative, or base sixteen behind 0x.
ghost use Rattle.std.specs.Prelude.{◌≡◌, ◌≤◌};
ghost use Rattle.text.specs.Numerals as spec;

use crate::parts::{after, byte_at};

fn base(hex: bool) -> u32
    ensures { (result ≡ spec.base hex) × (2 ≤ result) × (result ≤ 16) }
{
    if hex { 16 } else { 10 }
}

// One digit or more, of a 32-bit word; the library's parse takes a + before them.
fn digits(hex: bool, text: &[u8]) -> Option<u32>
    ensures { result ≡ spec.digits hex text.now }
{
    if text.is_empty() {
        return None;
    }
    let base = base(hex);
    let mut value: u32 = 0;
    for c in text {
        let digit = char::from(*c).to_digit(base)?;
        value = value.checked_mul(base)?.checked_add(digit)?;
    }
    Some(value)
}

fn minus(value: u32) -> u32
    ensures { result ≡ spec.minus value }
{
    value.wrapping_neg()
}

pub fn is_hex(text: &[u8]) -> bool
    ensures { result ≡ spec.is_hex text.now }
{
    (byte_at(text, 0) == b'0') & (byte_at(text, 1) == b'x')
}

// Base ten, with or without a minus sign, or base sixteen behind 0x.
pub fn number(text: &[u8]) -> Option<u32>
    ensures { result ≡ spec.number text.now }
{
    if is_hex(text) {
        return digits(true, after(text, b'x'));
    }
    if byte_at(text, 0) == b'-' {
        return digits(false, after(text, b'-')).map(minus);
    }
    digits(false, text)
}
