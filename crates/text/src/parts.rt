// The parts of a text: what stands before a byte, behind it, and between bytes.
ghost use Rattle.std.specs.Prelude.{◌≡◌, ◌≤◌, length};
ghost use Rattle.std.specs.Iterator.{YieldsFirstRef, item_count};
ghost use Rattle.text.specs.Parts as spec;

// How many bytes stand before the first one from low to high; all of them where there is none.
pub fn find_between(text: &[u8], low: u8, high: u8) -> usize
    ensures { (result ≡ spec.until low high text.now) × (result ≤ length text.now) }
{
    text.iter()
        .position(|b| (low <= *b) & (*b <= high))
        .unwrap_or(text.len())
}

pub fn find(text: &[u8], b: u8) -> usize
    ensures { (result ≡ spec.until b b text.now) × (result ≤ length text.now) }
{
    find_between(text, b, b)
}

pub fn before(text: &[u8], b: u8) -> &[u8]
    ensures { result.now ≡ spec.before b text.now }
{
    let n = find(text, b);
    &text[0..n]
}

pub fn after(text: &[u8], b: u8) -> &[u8]
    ensures { result.now ≡ spec.after b text.now }
{
    let n = find(text, b);
    if n < text.len() {
        return &text[n + 1..];
    }
    &text[n..]
}

// The parts that a byte separates, one by one. A slice's own split gives an empty part behind a last such byte, too.
#[derive(Clone, Copy)]
pub struct Parts<'a> {
    text: &'a [u8],
    by: u8,
}

impl<'a> Iterator for Parts<'a> {
    type Item = &'a [u8];

    ghost next_gives = { YieldsFirstRef spec.left };

    ghost remaining = { item_count spec.left };

    fn next(&mut self) -> Option<&'a [u8]> {
        let text = self.text;
        if text.is_empty() {
            return None;
        }
        self.text = after(text, self.by);
        Some(before(text, self.by))
    }
}

pub fn split(text: &[u8], b: u8) -> Parts<'_>
    ensures { spec.left result ≡ spec.split b text.now }
{
    Parts { text, by: b }
}

// Part k of those that b separates; empty where there are no more than k.
pub fn part(text: &[u8], k: usize, b: u8) -> &[u8]
    ensures { result.now ≡ spec.part b k text.now }
{
    split(text, b).nth(k).unwrap_or(&text[0..0])
}

// A byte of the text; 0 past its end.
pub fn byte_at(text: &[u8], i: usize) -> u8
    ensures { result ≡ spec.byte_at text.now i }
{
    text.get(i).copied().unwrap_or(0)
}
