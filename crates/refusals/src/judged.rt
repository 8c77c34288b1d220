// The running state's refusals of a line, 9, 17, 8 and 10, noted as its slots go by.
ghost use Rattle.std.specs.Prelude.{◌≡◌};
ghost use Rattle.line.specs.Verdicts as verdicts;
ghost use Rattle.refusals.specs.MemoryUses as uses;

use crate::memory_use::MemoryUse;
use line::rules::{Broken, Rule, note, unbroken};
use sets::range::{Range, no_words};

// The first slot that breaks each rule, if any; a, b and c are the words that the last three slots store.
#[derive(Clone, Copy)]
pub struct Judged {
    pub circular: Option<u32>,
    pub aligned: Option<u32>,
    pub access: Option<u32>,
    pub words: Option<u32>,
    pub a: Range,
    pub b: Range,
    pub c: Range,
}

pub fn none_judged() -> Judged
    ensures { result ≡ uses.none_judged }
{
    let none = no_words();
    Judged {
        circular: None,
        aligned: None,
        access: None,
        words: None,
        a: none,
        b: none,
        c: none,
    }
}

// Rule 10: a word that one of the last three slots stores too. Most slots store none.
#[tactic(auto, using(crate::proofs::Judgements::none_stored), unfolding(crate::specs::MemoryUses::stored_again))]
fn stored_again(judged: Judged, stored: Range) -> bool
    ensures { result ≡ uses.stored_again judged stored }
{
    if stored.high <= stored.low {
        return false;
    }
    judged.a.overlap(stored) | judged.b.overlap(stored) | judged.c.overlap(stored)
}

// Most slots break no rule.
#[tactic(auto, using(crate::proofs::Judgements::none_broken), unfolding(crate::specs::MemoryUses::judge))]
pub fn judge(judged: Judged, s: u32, slot: MemoryUse) -> Judged
    ensures { result ≡ uses.judge judged s slot }
{
    let again = stored_again(judged, slot.stored);
    let next = Judged {
        a: judged.b,
        b: judged.c,
        c: slot.stored,
        ..judged
    };
    if slot.outside | slot.aligned | slot.misplaced | again {
        return Judged {
            circular: note(judged.circular, s, slot.outside),
            aligned: note(judged.aligned, s, slot.aligned),
            access: note(judged.access, s, slot.misplaced),
            words: note(judged.words, s, again),
            ..next
        };
    }
    next
}

// Rule by rule over the whole line.
#[tactic(auto, unfolding(crate::specs::MemoryUses::verdict_of))]
pub fn verdict_of(judged: Judged) -> Result<(), Broken>
    ensures { verdicts.verdict_of result ≡ uses.verdict_of judged }
{
    unbroken(judged.circular, Rule::Circular)?;
    unbroken(judged.aligned, Rule::Aligned)?;
    unbroken(judged.access, Rule::Access)?;
    unbroken(judged.words, Rule::Words)
}
