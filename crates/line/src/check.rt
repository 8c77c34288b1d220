// A line: its slots read, and rules 3, 15, 16 and 4 to 7 in their order.
ghost use Rattle.std.specs.Prelude.{◌≡◌, true, length};
ghost use Rattle.line.specs.Lines as lines;
ghost use Rattle.line.specs.Rules as rules;
ghost use Rattle.line.specs.Verdicts as verdicts;

use crate::rules::{Broken, Rule, chosen, none_seen, see};
use crate::usage::usage_of;
use slots::conditional_slot::{LAST_CONDITION, SLOT_WORDS, modifier_fits};
use slots::slot::{FIELD_WORDS, read_fields};

// A slot whose fields cannot be read ends the pass: rule 3 comes first, and names the first such slot. One whose condition is above
// 12, or whose modifier does not fit, is noted; what it adds to the counts and registers is not asked, since 15 and 16 come before the
// other rules.
pub fn check_whole(line: &[u32]) -> Result<(), Broken>
    requires { lines.sized (length line.now) ≡ true }
    ensures { verdicts.verdict_of result ≡ rules.reads_verdict (lines.read_line line.now) }
{
    let mut seen = none_seen();
    for words in line.chunks_exact(SLOT_WORDS) {
        let Ok(slot) = read_fields(&words[..FIELD_WORDS]) else {
            return Err(Broken {
                rule: Rule::Fields,
                slot: u32::from(seen.slots),
            });
        };
        seen = see(
            seen,
            usage_of(words[0], slot),
            LAST_CONDITION < words[FIELD_WORDS],
            !modifier_fits(slot),
        );
    }
    chosen(seen.noted)
}

// The lengths of one to four slots, each a bit: one test, where four comparisons cost a trial more (docs/DECISIONS.md, 'The check').
const SIZES: u32 = 1 << 7 | 1 << 14 | 1 << 21 | 1 << 28;

// The length of one to four slots.
#[tactic(auto, using(crate::proofs::Sizes::size_bits))]
pub fn sized(l: usize) -> bool
    ensures { result ≡ lines.sized l }
{
    (l <= 4 * SLOT_WORDS) & ((SIZES >> (l % 32) as u32) % 2 == 1)
}

// Rules 3, 15, 16 and 4 to 7 on the words of a line; a length that is not of one to four slots is the directory's refusal, 2.
#[tactic(auto, unfolding(crate::specs::Lines::line_verdict))]
pub fn check_line(line: &[u32]) -> Result<(), Broken>
    ensures { verdicts.verdict_of result ≡ lines.line_verdict line.now }
{
    if sized(line.len()) {
        return check_whole(line);
    }
    Err(Broken {
        rule: Rule::Length,
        slot: 0,
    })
}
