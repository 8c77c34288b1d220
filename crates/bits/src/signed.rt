// Signed values of words, and sums that saturate.
ghost use Rattle.std.specs.Prelude.{◌≡◌, ◌-◌, ◌^◌, pos, ◌+ℤ◌, ◌-ℤ◌};
ghost use Rattle.bits.specs.Signed.{signed, wrap};
ghost use Rattle.bits.specs.Sums.{bits, sat};

// The widths at which sums saturate.
#[derive(Clone, Copy)]
pub enum Width {
    Short,
    Word,
}

// A sum after saturation, and whether it saturated.
#[derive(Clone, Copy)]
pub struct Saturated {
    pub value: i32,
    pub over: bool,
}

// A word that saturating sums made, and whether one of them saturated: no Option, since the word is there in both cases.
#[derive(Clone, Copy)]
pub struct Sum {
    pub value: u32,
    pub over: bool,
}

// The signed value of a word.
pub fn signed(a: u32) -> i32
    ensures { result ≡ signed 32 a }
{
    a.cast_signed()
}

// The word of a signed value.
pub fn word(z: i32) -> u32
    ensures { result ≡ wrap 32 z }
{
    z.cast_unsigned()
}

// Half the number of values that a width has.
fn half(w: Width) -> i64
    ensures { result ≡ pos (2 ^ (bits w - 1)) }
{
    match w {
        Width::Short => 0x8000,
        Width::Word => 0x8000_0000,
    }
}

// An exact sum, saturated at a width.
pub fn saturate(z: i64, w: Width) -> Saturated
    ensures { result ≡ sat (bits w) z }
{
    let h = half(w);
    let x = z.clamp(-h, h - 1);
    Saturated {
        value: x as i32,
        over: (z < -h) | (z >= h),
    }
}

pub fn saturated_sum(a: i32, b: i32, w: Width) -> Saturated
    ensures { result ≡ sat (bits w) (a +ℤ b) }
{
    saturate(i64::from(a) + i64::from(b), w)
}

pub fn saturated_difference(a: i32, b: i32, w: Width) -> Saturated
    ensures { result ≡ sat (bits w) (a -ℤ b) }
{
    saturate(i64::from(a) - i64::from(b), w)
}
