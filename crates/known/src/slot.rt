// The slot that seven words are, where they are known to be one: its family is told by unit and op, and no word is tested again.
// Its condition is the last of them, and stays with the caller.
ghost use Rattle.std.specs.Prelude.{◌≡◌, Ok, get_or};
ghost use Rattle.slots.specs.Slots as slots;
ghost use Rattle.slots.specs.Conditionals.{conditional, read_slot};

use slots::slot::Slot;

fn known_clu(b: u32, op: u32, t: u32, f: u32, s: u32, i: u32) -> Slot
    requires { slots.read_code (slots.read_clu b op t f s i) ≡ 0 }
    ensures { slots.read_clu b op t f s i ≡ Ok result }
{
    match op {
        0..=8 => Slot::Trellis(b, op, t, f, s, i),
        9 | 10 => Slot::Tmax(b, op, t, f, s),
        _ => Slot::Despread(b, op, t, f, s, i),
    }
}

#[tactic(auto, using(crate::proofs::KnownFamilies::is_arith, crate::proofs::KnownFamilies::is_access))]
fn known_ialu(ialu: u32, op: u32, t: u32, f: u32, s: u32, i: u32) -> Slot
    requires { slots.read_code (slots.read_ialu ialu op t f s i) ≡ 0 }
    ensures { slots.read_ialu ialu op t f s i ≡ Ok result }
{
    match op {
        0..=14 => Slot::Arith(ialu, op, t, f, s, i),
        15 | 16 => Slot::Buffer(ialu, op, t, f),
        17..=23 => Slot::Access(ialu, op, t / 65536, t / 256 % 256, t % 256, f, s, i),
        _ => Slot::DabLoad(ialu, op % 2, t, f, i),
    }
}

#[tactic(auto, using(crate::proofs::KnownFamilies::units))]
fn known_words(u: u32, op: u32, t: u32, f: u32, s: u32, i: u32) -> Slot
    requires { slots.read_code (slots.read_words u op t f s i) ≡ 0 }
    ensures { slots.read_words u op t f s i ≡ Ok result }
{
    let side = 1 - u % 2;
    match u {
        0..=2 => Slot::Alu(side, op, t, f, s),
        3 | 4 => Slot::Shifter(side, op, t, f, s),
        5 | 6 => known_clu(side, op, t, f, s, i),
        7 | 8 => known_ialu(side, op, t, f, s, i),
        _ => Slot::Transfer(side, op, t, f),
    }
}

#[tactic(auto, using(crate::proofs::KnownFamilies::known))]
pub fn known_slot(words: &[u32]) -> Slot
    requires { slots.read_code (read_slot words.now) ≡ 0 }
    ensures { read_slot words.now ≡ Ok (conditional result (get_or words.now 6 0)) }
{
    known_words(words[0], words[1], words[2], words[3], words[4], words[5])
}
