// Rules 15, 16 and 4 to 7, noted as the slots of a line go by.
ghost use Rattle.std.specs.Prelude.{◌≡◌, ◌+◌, ◌<◌};
ghost use Rattle.line.specs.Pass as pass;
ghost use Rattle.line.specs.Verdicts as verdicts;

use crate::usage::Usage;
use sets::place_set::{PlaceSet, words};
use sets::stored::Stored;

// The rules that a line can break, in the order in which they are tested, each with 01's code.
#[derive(Clone, Copy, Debug, PartialEq, Eq)]
pub enum Rule {
    // 2: not one to four slots
    Length,
    // 3: a slot whose fields cannot be read
    Fields,
    // 15: a slot's condition above 12
    Condition,
    // 16: a modifier that is not 4, of a load through a data alignment buffer
    Modifier,
    // 4: over four positions, or a second wide slot
    Positions,
    // 5: two slots on one unit
    Units,
    // 6: over two slots for one block
    Blocks,
    // 7: a register place stored twice
    Registers,
    // 9: an index or a modifier that does not fit its circular buffer, or the buffer memory
    Circular,
    // 17: a load through a data alignment buffer from an aligned index
    Aligned,
    // 8: an access not aligned to its width, or past memory
    Access,
    // 10: a memory word stored twice
    Words,
    // 11: an order that is not admissible
    Order,
}

impl Rule {
    pub fn code(self) -> u32
        ensures { result ≡ verdicts.rule_code self }
    {
        match self {
            Rule::Length => 2,
            Rule::Fields => 3,
            Rule::Positions => 4,
            Rule::Units => 5,
            Rule::Blocks => 6,
            Rule::Registers => 7,
            Rule::Access => 8,
            Rule::Circular => 9,
            Rule::Words => 10,
            Rule::Order => 11,
            Rule::Condition => 15,
            Rule::Modifier => 16,
            Rule::Aligned => 17,
        }
    }
}

// The first rule that a line breaks, and the slot.
#[derive(Clone, Copy, Debug, PartialEq, Eq)]
pub struct Broken {
    pub rule: Rule,
    pub slot: u32,
}

// Something of each rule that is noted as the slots go by.
#[derive(Clone, Copy)]
pub struct ByRule<T> {
    pub condition: T,
    pub modifier: T,
    pub positions: T,
    pub units: T,
    pub blocks: T,
    pub registers: T,
}

// The first slot that breaks each rule, if any.
pub type Noted = ByRule<Option<u8>>;

// What is kept of the slots so far: a, b and c are the units of the last three, 0 for none. Plain numbers, so that each rule is a test
// without branches (docs/PERFORMANCE.md).
#[derive(Clone, Copy)]
pub struct Seen {
    pub slots: u8,
    pub counts: u32,
    pub a: u32,
    pub b: u32,
    pub c: u32,
    pub stored: PlaceSet,
    pub noted: Noted,
}

// The counts of no slot: a count above its limit (4 positions, 1 wide slot, 2 slots for X, 2 for Y) reaches its byte's top bit.
const NO_COUNTS: u32 = 0x7D7D_7E7B;

const OVER_POSITIONS: u32 = 0x80;

const OVER_WIDE: u32 = 0x8000;

const OVER_X: u32 = 0x80_0000;

const OVER_Y: u32 = 0x8000_0000;

pub(crate) fn none_seen() -> Seen
    ensures { result ≡ pass.none_seen }
{
    Seen {
        slots: 0,
        counts: NO_COUNTS,
        a: 0,
        b: 0,
        c: 0,
        stored: words(0, 0, 0, 0),
        noted: ByRule {
            condition: None,
            modifier: None,
            positions: None,
            units: None,
            blocks: None,
            registers: None,
        },
    }
}

// Rule 4: over four positions, or a second wide slot.
fn crowded(counts: u32) -> bool
    ensures { result ≡ pass.crowded counts }
{
    (counts / OVER_POSITIONS % 2 == 1) | (counts / OVER_WIDE % 2 == 1)
}

// Rule 6: over two slots for one block.
fn block_full(counts: u32) -> bool
    ensures { result ≡ pass.block_full counts }
{
    (counts / OVER_X % 2 == 1) | (counts / OVER_Y % 2 == 1)
}

// Rule 7: a slot that stores a register of a set, or one twice.
#[tactic(auto, unfolding(crate::specs::Pass::stores_again))]
fn stores_again(set: PlaceSet, stored: Stored) -> bool
    ensures { result ≡ pass.stores_again set stored }
{
    set.meets(stored.set) | stored.twice
}

// The first slot that breaks a rule.
pub fn note<T: Copy>(noted: Option<T>, s: T, breaks: bool) -> Option<T>
    ensures { result ≡ pass.note noted s breaks }
{
    noted.or(breaks.then_some(s))
}

// Most slots break no rule.
#[tactic(auto, using(crate::proofs::Noted::none_broken), unfolding(crate::specs::Pass::note_all))]
fn note_all(noted: Noted, s: u8, breaks: ByRule<bool>) -> Noted
    ensures { result ≡ pass.note_all noted s breaks }
{
    if breaks.condition
        | breaks.modifier
        | breaks.positions
        | breaks.units
        | breaks.blocks
        | breaks.registers
    {
        return ByRule {
            condition: note(noted.condition, s, breaks.condition),
            modifier: note(noted.modifier, s, breaks.modifier),
            positions: note(noted.positions, s, breaks.positions),
            units: note(noted.units, s, breaks.units),
            blocks: note(noted.blocks, s, breaks.blocks),
            registers: note(noted.registers, s, breaks.registers),
        };
    }
    noted
}

// condition: its condition is above 12. modifier: its modifier does not fit.
#[tactic(auto, unfolding(crate::specs::Pass::see))]
pub(crate) fn see(seen: Seen, slot: Usage, condition: bool, modifier: bool) -> Seen
    requires slots_bound { seen.slots < 4 }
    requires counts_bound { seen.counts + slot.counts < 4294967296 }
    ensures { result ≡ pass.see seen slot condition modifier }
{
    let counts = seen.counts + slot.counts;
    let breaks = ByRule {
        condition,
        modifier,
        positions: crowded(counts),
        units: (seen.a == slot.unit) | (seen.b == slot.unit) | (seen.c == slot.unit),
        blocks: block_full(counts),
        registers: stores_again(seen.stored, slot.stored),
    };
    Seen {
        slots: seen.slots + 1,
        counts,
        a: seen.b,
        b: seen.c,
        c: slot.unit,
        stored: seen.stored.join(slot.stored.set),
        noted: note_all(seen.noted, seen.slots, breaks),
    }
}

// A slot that is noted breaks the rule.
pub fn unbroken(noted: Option<u32>, rule: Rule) -> Result<(), Broken>
    ensures { result ≡ pass.unbroken noted rule }
{
    match noted {
        Some(slot) => Err(Broken { rule, slot }),
        None => Ok(()),
    }
}

// A slot's number as a word: noted as a byte, it costs the check less to carry.
fn word(noted: Option<u8>) -> Option<u32>
    ensures { result ≡ noted }
{
    match noted {
        Some(slot) => Some(slot as u32),
        None => None,
    }
}

// Rule by rule over the whole line.
#[tactic(auto, unfolding(crate::specs::Pass::chosen))]
pub(crate) fn chosen(noted: Noted) -> Result<(), Broken>
    ensures { verdicts.verdict_of result ≡ pass.chosen noted }
{
    unbroken(word(noted.condition), Rule::Condition)?;
    unbroken(word(noted.modifier), Rule::Modifier)?;
    unbroken(word(noted.positions), Rule::Positions)?;
    unbroken(word(noted.units), Rule::Units)?;
    unbroken(word(noted.blocks), Rule::Blocks)?;
    unbroken(word(noted.registers), Rule::Registers)
}
