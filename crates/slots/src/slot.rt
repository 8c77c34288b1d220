// The fields of a slot: six words to a slot of one unit family, or a refusal (code 3). Its condition is beside it (conditional_slot.rt).
ghost use Rattle.std.specs.Prelude.{◌≡◌};
ghost use Rattle.slots.specs.Slots as slots;

// The fields of a slot: unit, op, target, first, second, imm.
pub const FIELD_WORDS: usize = 6;

// A slot by its unit family, with its fields in 01's order. block: 0 X, 1 Y. ialu: 0 J, 1 K.
// Each field is 01's own number, of which the definitions speak: read_words (Slots), words_of_slot (SlotWords), stored (Stores).
#[derive(Clone, Copy)]
pub enum Slot {
    // block, op, target, first, second
    Alu(u32, u32, u32, u32, u32),
    // block, op, target, first, second
    Shifter(u32, u32, u32, u32, u32),
    // CLU ops 1-8: block, op, target, first, second, R number q
    Trellis(u32, u32, u32, u32, u32, u32),
    // CLU ops 9, 10: block, op, target, first, second
    Tmax(u32, u32, u32, u32, u32),
    // CLU ops 11-13: block, op, target, first, THR pair, the R that takes the old TR
    Despread(u32, u32, u32, u32, u32, u32),
    // block, op, target, first
    Transfer(u32, u32, u32, u32),
    // IALU ops 1-14: ialu, op, target, first, second, imm
    Arith(u32, u32, u32, u32, u32, u32),
    // IALU ops 15, 16: ialu, op, target, first
    Buffer(u32, u32, u32, u32),
    // IALU ops 17-23: ialu, op, width, file, number, first, second, imm
    Access(u32, u32, u32, u32, u32, u32, u32, u32),
    // IALU ops 24 (X), 25 (Y), through a block's data alignment buffer: ialu, block, target, first, imm
    DabLoad(u32, u32, u32, u32, u32),
}

// Why words are no slot: 01's code 3, and codes 15 and 16 of document 02, as the definition `read_code` gives them.
#[derive(Clone, Copy, Debug, PartialEq, Eq)]
pub enum SlotRefusal {
    BadFields,
    BadCondition,
    BadModifier,
}

// Each family's test is its definition's expression, over `&` and `|`: it has no branches, and needs no proof of its own.
// The fields come one by one, as they do there: in a struct every test would name each by two words.
fn alu_fits(op: u32, t: u32, f: u32, s: u32, i: u32) -> bool
    ensures { result ≡ slots.alu_fits op t f s i }
{
    let one = (8 <= op) & (op <= 10);
    ((1 <= op) & (op <= 12)) & (t < 32) & (f < 32) & (!one & (s < 32) | one & (s == 0)) & (i == 0)
}

fn shifter_fits(op: u32, t: u32, f: u32, s: u32, i: u32) -> bool
    ensures { result ≡ slots.shifter_fits op t f s i }
{
    let test = op == 7;
    let leading = 8 <= op;
    ((1 <= op) & (op <= 9))
        & (!test & (t < 32) | test & (t == 0))
        & (f < 32)
        & (!leading & (s < 32) | leading & (s == 0))
        & (i == 0)
}

fn trellis_fits(op: u32, t: u32, f: u32, s: u32, i: u32) -> bool
    ensures { result ≡ slots.trellis_fits op t f s i }
{
    ((1 <= op) & (op <= 8))
        & ((t < 32) & (t % 2 == 0))
        & ((f < 32) & (f % 2 == 0))
        & ((s < 32) & (s % 2 == 0))
        & ((i < 32) & (i % 4 == 0))
}

fn tmax_fits(op: u32, t: u32, f: u32, s: u32, i: u32) -> bool
    ensures { result ≡ slots.tmax_fits op t f s i }
{
    ((9 <= op) & (op <= 10)) & (t < 32) & (f < 32) & (s < 32) & (i == 0)
}

fn despread_fits(op: u32, t: u32, f: u32, s: u32, i: u32) -> bool
    ensures { result ≡ slots.despread_fits op t f s i }
{
    let adds = op == 11;
    ((11 <= op) & (op <= 13))
        & (t < 32)
        & ((f < 32) & (f % 4 == 0))
        & ((s == 0) | (s == 2))
        & (!adds & (i < 32) | adds & (i == 0))
        & ((op != 13) | (t % 2 == 0) & (i % 2 == 0))
}

fn transfer_fits(op: u32, t: u32, f: u32, s: u32, i: u32) -> bool
    ensures { result ≡ slots.transfer_fits op t f s i }
{
    ((1 <= op) & (op <= 3))
        & (t < 32)
        & (f < 32)
        & (s == 0)
        & (i == 0)
        & ((op != 2) | ((t == 0) | (t == 2)) & (f % 2 == 0))
}

fn arith_fits(op: u32, t: u32, f: u32, s: u32, i: u32) -> bool
    ensures { result ≡ slots.arith_fits op t f s i }
{
    let one = (8 <= op) & (op <= 12);
    ((1 <= op) & (op <= 14))
        & (t < 32)
        & (f < 32)
        & ((op != 13) | (f < 4))
        & (one & ((s == 0) & (i == 0)) | !one & ((s < 32) & (i == 0) | (s == 32)))
}

fn buffer_fits(op: u32, t: u32, f: u32, s: u32, i: u32) -> bool
    ensures { result ≡ slots.buffer_fits op t f s i }
{
    ((15 <= op) & (op <= 16)) & (t < 4) & (f < 32) & (s == 0) & (i == 0)
}

// The registers that an access names by its target: width, file and number.
#[tactic(auto, unfolding(crate::specs::Slots::range_fits))]
fn range_fits(w: u32, file: u32, n: u32) -> bool
    ensures { result ≡ slots.range_fits w file n }
{
    ((w == 1) | (w == 2) & (n % 2 == 0) | (w == 4) & (n % 4 == 0))
        & (file < 4)
        & (n < 32)
        & ((file < 2) | (n as u64 + w as u64 <= 31))
}

fn access_fits(op: u32, t: u32, f: u32, s: u32, i: u32) -> bool
    ensures { result ≡ slots.access_fits op t f s i }
{
    range_fits(t / 65536, t / 256 % 256, t % 256)
        & ((17 <= op) & (op <= 23))
        & (f < 32)
        & ((op == 18) | (op == 20) | (f < 31))
        & ((op <= 20) | (f < 4))
        & ((s < 32) & (i == 0) | (s == 32))
}

// The modifier is not tested with the fields (conditional_slot.rt).
fn dab_fits(op: u32, t: u32, f: u32, s: u32) -> bool
    ensures { result ≡ slots.dab_fits op t f s }
{
    ((24 <= op) & (op <= 25)) & ((t < 32) & (t % 4 == 0)) & (f < 4) & (s == 32)
}

// By if and else, as the other families: with then_some and ok_or a check takes 3 to 7 % longer (docs/DESIGN-PASS.md, 'Speed').
fn read_alu(b: u32, op: u32, t: u32, f: u32, s: u32, i: u32) -> Result<Slot, SlotRefusal>
    ensures { result ≡ slots.read_alu b op t f s i }
{
    if alu_fits(op, t, f, s, i) {
        Ok(Slot::Alu(b, op, t, f, s))
    } else {
        Err(SlotRefusal::BadFields)
    }
}

fn read_shifter(b: u32, op: u32, t: u32, f: u32, s: u32, i: u32) -> Result<Slot, SlotRefusal>
    ensures { result ≡ slots.read_shifter b op t f s i }
{
    if shifter_fits(op, t, f, s, i) {
        Ok(Slot::Shifter(b, op, t, f, s))
    } else {
        Err(SlotRefusal::BadFields)
    }
}

fn read_clu(b: u32, op: u32, t: u32, f: u32, s: u32, i: u32) -> Result<Slot, SlotRefusal>
    ensures { result ≡ slots.read_clu b op t f s i }
{
    if trellis_fits(op, t, f, s, i) {
        Ok(Slot::Trellis(b, op, t, f, s, i))
    } else if tmax_fits(op, t, f, s, i) {
        Ok(Slot::Tmax(b, op, t, f, s))
    } else if despread_fits(op, t, f, s, i) {
        Ok(Slot::Despread(b, op, t, f, s, i))
    } else {
        Err(SlotRefusal::BadFields)
    }
}

fn read_transfer(b: u32, op: u32, t: u32, f: u32, s: u32, i: u32) -> Result<Slot, SlotRefusal>
    ensures { result ≡ slots.read_transfer b op t f s i }
{
    if transfer_fits(op, t, f, s, i) {
        Ok(Slot::Transfer(b, op, t, f))
    } else {
        Err(SlotRefusal::BadFields)
    }
}

fn read_ialu(ialu: u32, op: u32, t: u32, f: u32, s: u32, i: u32) -> Result<Slot, SlotRefusal>
    ensures { result ≡ slots.read_ialu ialu op t f s i }
{
    if arith_fits(op, t, f, s, i) {
        Ok(Slot::Arith(ialu, op, t, f, s, i))
    } else if buffer_fits(op, t, f, s, i) {
        Ok(Slot::Buffer(ialu, op, t, f))
    } else if access_fits(op, t, f, s, i) {
        Ok(Slot::Access(ialu, op, t / 65536, t / 256 % 256, t % 256, f, s, i))
    } else if dab_fits(op, t, f, s) {
        Ok(Slot::DabLoad(ialu, op % 2, t, f, i))
    } else {
        Err(SlotRefusal::BadFields)
    }
}

// By the unit: odd numbers are X and J, even ones Y and K.
#[tactic(auto, unfolding(crate::specs::Slots::read_words))]
fn read_words(u: u32, op: u32, t: u32, f: u32, s: u32, i: u32) -> Result<Slot, SlotRefusal>
    ensures { result ≡ slots.read_words u op t f s i }
{
    let side = 1 - u % 2;
    match u {
        1 | 2 => read_alu(side, op, t, f, s, i),
        3 | 4 => read_shifter(side, op, t, f, s, i),
        5 | 6 => read_clu(side, op, t, f, s, i),
        7 | 8 => read_ialu(side, op, t, f, s, i),
        9 | 10 => read_transfer(side, op, t, f, s, i),
        _ => Err(SlotRefusal::BadFields),
    }
}

// The slot that six words are; words of any other number are refused.
#[tactic(auto, using(crate::proofs::ReadCodes::read_code_lem), unfolding(crate::specs::Slots::read_fields))]
pub fn read_fields(words: &[u32]) -> Result<Slot, SlotRefusal>
    ensures { (result ≡ slots.read_fields words.now) × (slots.read_code result ≡ slots.fields_code words.now) }
{
    let [u, op, t, f, s, i] = words else {
        return Err(SlotRefusal::BadFields);
    };
    read_words(*u, *op, *t, *f, *s, *i)
}
