// The layout's table: a row a file, with its first word and its size, and one for the ends, before the last file. Every offset has
// its name here and nowhere else.
ghost use Rattle.std.specs.Prelude.{◌≡◌, eqb};
ghost use Rattle.bits.specs.Pick.{pick};
ghost use Rattle.slots.specs.Places.{Base, Length, ialu_file, access_file, file_number};
ghost use Rattle.machine.specs.Machine.{of_buffer};
ghost use Rattle.layout.specs.Layout.{file_is, size_at, start_at};

// The first word of each file.
pub const R_AT: usize = 0;

pub const TR_AT: usize = 64;

pub const THR_AT: usize = 128;

pub const J_AT: usize = 136;

pub const K_AT: usize = 167;

pub const BASE_AT: usize = 198;

pub const LENGTH_AT: usize = 206;

pub const FLAGS_AT: usize = 214;

// The ends, which are no places: two words each, low and high.
pub const END_AT: usize = 222;

pub const DAB_AT: usize = 238;

// The words of a state.
pub const STATE_WORDS: usize = 246;

#[derive(Clone, Copy)]
pub enum RegisterFile {
    R,
    TR,
    THR,
    J,
    K,
    Base,
    Length,
    Flags,
    Dab,
}

// The first word of a file, and its size.
pub(crate) fn row(file: RegisterFile) -> (usize, usize)
    ensures { (result.0 ≡ start_at (file_number (file_is file))) × (result.1 ≡ size_at (file_number (file_is file))) }
{
    match file {
        RegisterFile::R => (R_AT, TR_AT - R_AT),
        RegisterFile::TR => (TR_AT, THR_AT - TR_AT),
        RegisterFile::THR => (THR_AT, J_AT - THR_AT),
        RegisterFile::J => (J_AT, K_AT - J_AT),
        RegisterFile::K => (K_AT, BASE_AT - K_AT),
        RegisterFile::Base => (BASE_AT, LENGTH_AT - BASE_AT),
        RegisterFile::Length => (LENGTH_AT, FLAGS_AT - LENGTH_AT),
        RegisterFile::Flags => (FLAGS_AT, END_AT - FLAGS_AT),
        RegisterFile::Dab => (DAB_AT, STATE_WORDS - DAB_AT),
    }
}

// Whether a file is of base or length registers.
pub(crate) fn of_buffer(file: RegisterFile) -> bool
    ensures { result ≡ of_buffer (file_is file) }
{
    matches!(file, RegisterFile::Base | RegisterFile::Length)
}

// The registers of an IALU.
pub fn ialu_file(ialu: u32) -> RegisterFile
    ensures { file_is result ≡ ialu_file ialu }
{
    match ialu {
        0 => RegisterFile::J,
        _ => RegisterFile::K,
    }
}

// The file of an access.
pub fn access_file(file: u32) -> RegisterFile
    ensures { file_is result ≡ access_file file }
{
    match file {
        0 | 1 => RegisterFile::R,
        2 => RegisterFile::J,
        _ => RegisterFile::K,
    }
}

// The base registers for op 15, else the length registers.
pub fn buffer_file(op: u32) -> RegisterFile
    ensures { file_is result ≡ pick (eqb op 15) Base Length }
{
    match op {
        15 => RegisterFile::Base,
        _ => RegisterFile::Length,
    }
}
