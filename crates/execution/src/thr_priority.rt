// THR priority: under which condition a line loads the THR pair that one of its slots shifts.
ghost use Rattle.std.specs.Prelude.{◌≡◌, false};
ghost use Rattle.slots.specs.Conditionals.{read_slot};
ghost use Rattle.slots.specs.Slots.{read_code};
ghost use Rattle.slots.specs.Families.{on_conditional};
ghost use Rattle.slots.specs.Stores as stores;
ghost use Rattle.line.specs.Lines.{line_verdict};
ghost use Rattle.execution.specs.PlainLine.{line_of};

use slots::conditional_slot::{NEVER, SLOT_WORDS};
use slots::slot::{FIELD_WORDS, Slot};

// The words of a slot that loads THR pair p of a block: a CLU transfer, unit 9 for X and 10 for Y, with op 2.
#[tactic(auto, using(crate::proofs::ThrPriority::slot_seven, crate::proofs::ThrPriority::slot_loads))]
fn loads(words: &[u32], block: u32, p: u32) -> bool
    requires { read_code (read_slot words.now) ≡ 0 }
    ensures { result ≡ on_conditional false (λ x. stores.loads_pair block p x.slot) (read_slot words.now) }
{
    let unit = words[0];
    ((unit == 9) & (block == 0) | (unit == 10) & (block == 1)) & (words[1] == 2) & (words[2] == p)
}

fn line_load(line: &[u32], block: u32, p: u32) -> u32
    requires { (line_verdict line.now).code ≡ 0 }
    ensures { result ≡ stores.load_of block p (line_of line.now) }
{
    for words in line.chunks_exact(SLOT_WORDS) {
        if loads(words, block, p) {
            return words[FIELD_WORDS];
        }
    }
    NEVER
}

// The condition under which a line loads the THR pair that a slot shifts.
#[tactic(auto, using(crate::proofs::ThrPriority::no_shift))]
pub fn load_condition(line: &[u32], slot: Slot) -> u32
    requires { (line_verdict line.now).code ≡ 0 }
    ensures { result ≡ stores.load_condition (line_of line.now) slot }
{
    let Slot::Despread(block, _, _, _, p, _) = slot else {
        return NEVER;
    };
    line_load(line, block, p)
}
