// Tables of words: entries of eight bytes, filled up with spaces.
ghost use Rattle.std.specs.Prelude.{◌≡◌, ◌/◌, ◌<◌, length, IfSome};
ghost use Rattle.text.specs.Tables as spec;

// The entry is this word, with nothing but spaces behind it.
fn named(entry: &[u8], word: &[u8]) -> bool
    ensures { result ≡ spec.named entry.now word.now }
{
    entry.starts_with(word) && entry[word.len()..].iter().all(|c| *c == b' ')
}

// The number of the first entry that is this word.
pub fn entry_of(table: &[u8], word: &[u8]) -> Option<usize>
    ensures { (result ≡ spec.entry_of table.now word.now)
        × IfSome result (λ i. i < length table.now / 8) }
{
    for i in 0..table.len() / 8 {
        if named(&table[8 * i..8 * i + 8], word) {
            return Some(i);
        }
    }
    None
}
