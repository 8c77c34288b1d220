// Rule 5: the pairs of a line's slots, compared and counted (document 02, Note 7, which has not been taken up; docs/PORT.md). No call
// uses it yet.
#![tactic(auto)]

ghost use Rattle.std.specs.Prelude.{◌≡◌, true, length};
ghost use Rattle.line.specs.Lines as lines;
ghost use Rattle.pairs.specs.Units as units;

use slots::conditional_slot::SLOT_WORDS;

// How many pairs were compared, and the later slot of the pair on one unit, if any.
#[derive(Clone, Copy)]
pub struct Compared {
    pub pairs: u32,
    pub later: Option<u32>,
}

// Pairs by their later slot, then by their earlier one, up to and with the first on one unit. A slot's unit is its first word.
pub fn compare_units(line: &[u32]) -> Compared
    requires { lines.sized (length line.now) ≡ true }
    ensures { result ≡ units.compared_units (units.units_in line.now) }
{
    let mut pairs: u32 = 0;
    for later in 1..line.len() / SLOT_WORDS {
        for earlier in 0..later {
            pairs += 1;
            if line[SLOT_WORDS * earlier] == line[SLOT_WORDS * later] {
                let later = Some(later as u32);
                return Compared { pairs, later };
            }
        }
    }
    Compared { pairs, later: None }
}
