// Names of places: letters and a number, as in xr3, jb0 and m17. A name with no digits has number 0.
ghost use Rattle.std.specs.Prelude.{◌≡◌};
ghost use Rattle.published.specs.Names as spec;

use crate::board::{MEMORY_AT, MEMORY_WORDS, REPORT_AT};
use layout::table;
use text::numerals::number;
use text::parts::find_between;
use text::tables::entry_of;

// The names with numbers, and the first place of each with how many it has: registers and buffers stand where a state has them;
// then the memory words.
const NUMBERED: &[u8] = b"xr      yr      xtr     ytr     xthr    ythr    j       k       \
      jb      kb      jl      kl      xdab    ydab    m       ";

const SPANS: [(u32, u32); 15] = [
    (table::R_AT as u32, 32),
    (table::R_AT as u32 + 32, 32),
    (table::TR_AT as u32, 32),
    (table::TR_AT as u32 + 32, 32),
    (table::THR_AT as u32, 4),
    (table::THR_AT as u32 + 4, 4),
    (table::J_AT as u32, 31),
    (table::K_AT as u32, 31),
    (table::BASE_AT as u32, 4),
    (table::BASE_AT as u32 + 4, 4),
    (table::LENGTH_AT as u32, 4),
    (table::LENGTH_AT as u32 + 4, 4),
    (table::DAB_AT as u32, 4),
    (table::DAB_AT as u32 + 4, 4),
    (MEMORY_AT as u32, MEMORY_WORDS as u32),
];

fn numbered(letters: &[u8], n: u32) -> Option<usize>
    ensures { result ≡ spec.numbered letters.now n }
{
    let (first, count) = SPANS[entry_of(NUMBERED, letters)?];
    if n < count {
        return Some(first as usize + n as usize);
    }
    None
}

// A report's numbers, the condition call's answer, and the flags by their groups, a place each. No name has a space, so that
// . . is a place without one.
const SINGLES: &[u8] = b"code    line    slot    lines   steps   . .     answer  \
      xaz     xan     xav     xac     yaz     yan     yav     yac     \
      xsz     xsn     . .     . .     ysz     ysn     . .     . .     \
      xtrov   xtrsov  . .     . .     ytrov   ytrsov  . .     . .     \
      jz      jn      jv      jc      kz      kn      kv      kc      ";

fn single(letters: &[u8]) -> Option<usize>
    ensures { result ≡ spec.single letters.now }
{
    Some(REPORT_AT + entry_of(SINGLES, letters)?)
}

fn lettered(letters: &[u8], n: u32) -> Option<usize>
    ensures { result ≡ spec.lettered letters.now n }
{
    let place = numbered(letters, n);
    if place.is_some() | (0 < n) {
        return place;
    }
    single(letters)
}

// The place that a name stands for.
pub(crate) fn place(name: &[u8]) -> Option<usize>
    ensures { result ≡ spec.place name.now }
{
    let k = find_between(name, b'0', b'9');
    if k == name.len() {
        return lettered(name, 0);
    }
    lettered(&name[0..k], number(&name[k..])?)
}
