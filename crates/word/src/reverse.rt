// Bit-reversed addresses. Five functions, and not `reverse_bits`: each swap has a promise of its own (`Stands`, `InTurn`).
ghost use Rattle.std.specs.Prelude.{◌≡◌};
ghost use Rattle.word.specs.Addresses.{reverse_bits, add_reversed};
ghost use Rattle.word.specs.Swaps.{Stands};

// Each swap exchanges neighbouring fields: the mask has the lower one of every two.
fn swap_halves(w: u32) -> u32
    ensures { Stands 16 w result }
{
    (w & 0x0000_ffff) << 16 | (w >> 16) & 0x0000_ffff
}

fn swap_bytes(w: u32) -> u32
    ensures { Stands 8 w result }
{
    (w & 0x00ff_00ff) << 8 | (w >> 8) & 0x00ff_00ff
}

fn swap_nibbles(w: u32) -> u32
    ensures { Stands 4 w result }
{
    (w & 0x0f0f_0f0f) << 4 | (w >> 4) & 0x0f0f_0f0f
}

fn swap_pairs(w: u32) -> u32
    ensures { Stands 2 w result }
{
    (w & 0x3333_3333) << 2 | (w >> 2) & 0x3333_3333
}

fn swap_bits(w: u32) -> u32
    ensures { Stands 1 w result }
{
    (w & 0x5555_5555) << 1 | (w >> 1) & 0x5555_5555
}

// Bit i of w stands at i xor 16, 24, 28, 30 and 31 in turn; the last is place 31 - i.
pub fn reverse(w: u32) -> u32
    ensures { result ≡ reverse_bits 32 w }
{
    let halves = swap_halves(w);
    let bytes = swap_bytes(halves);
    let nibbles = swap_nibbles(bytes);
    let pairs = swap_pairs(nibbles);
    swap_bits(pairs)
}

pub fn add_reversed(a: u32, b: u32) -> u32
    ensures { result ≡ add_reversed a b }
{
    reverse(reverse(a).wrapping_add(reverse(b)))
}
