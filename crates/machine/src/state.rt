// The registers, flags, ends of buffers and data alignment buffers, by value.
ghost use Rattle.std.specs.Prelude.{◌≡◌};
ghost use Rattle.machine.specs.Machine.{zero_state};

// r, tr: X's 32 registers and then Y's. thr: X's four and then Y's. base, length: J's four and then K's.
// j, k: registers 0 to 30; register 31 is none. flags: a word a flag group, by the unit's number less 1.
// end: base + length of each buffer, J's four and then K's. A caller may leave any number: the runs put the ends right.
// dab: the data alignment buffers, X's four words and then Y's.
#[derive(Clone, Copy)]
pub struct State {
    pub r: [u32; 64],
    pub tr: [u32; 64],
    pub thr: [u32; 8],
    pub j: [u32; 31],
    pub k: [u32; 31],
    pub base: [u32; 8],
    pub length: [u32; 8],
    pub flags: [u32; 8],
    pub end: [u64; 8],
    pub dab: [u32; 8],
}

// The state with 0 in every register, flag group, end and data alignment buffer.
pub fn zero_state() -> State
    ensures { result ≡ zero_state }
{
    State {
        r: [0; 64],
        tr: [0; 64],
        thr: [0; 8],
        j: [0; 31],
        k: [0; 31],
        base: [0; 8],
        length: [0; 8],
        flags: [0; 8],
        end: [0; 8],
        dab: [0; 8],
    }
}
