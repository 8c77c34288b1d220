// The directory of an image: word 0 is the line count n, then come n pairs (offset, length).
ghost use Rattle.std.specs.Prelude.{◌≡◌, ◌<◌};
ghost use Rattle.image.specs.Directory as dir;

use line::check::sized;

// A word as an index: any 32-bit word, so that sums of two are exact.
pub fn index(w: u32) -> usize
    ensures { (result ≡ w) × (result < 4294967296) }
{
    w as usize
}

// How many lines the image has: word 0; none where it is empty.
pub fn line_count(image: &[u32]) -> u32
    ensures { result ≡ dir.line_count image.now }
{
    image.first().copied().unwrap_or(0)
}

// The pairs that remain are in order: each region is one to four slots long, starts at or after low and ends by end.
#[tactic(auto, using(crate::proofs::Pairs::pairs_none, crate::proofs::Pairs::pairs_good, crate::proofs::Pairs::pairs_bad))]
fn in_order(end: usize, low: usize, pairs: &[u32]) -> bool
    ensures { result ≡ dir.in_order end low pairs.now }
{
    let [offset, length, rest @ ..] = pairs else {
        return true;
    };
    let offset = *offset as usize;
    let length = *length as usize;
    let next = offset + length;
    let fits = sized(length) & (low <= offset) & (next <= end);
    if fits {
        return in_order(end, next, rest);
    }
    false
}

// 1+2n, exact for every word n.
pub fn directory_end(image: &[u32]) -> usize
    ensures { result ≡ dir.directory_end image.now }
{
    1 + 2 * line_count(image) as usize
}

#[tactic(auto, using(crate::proofs::Pairs::directory_short, crate::proofs::Pairs::directory_walked))]
pub fn directory_passes(image: &[u32]) -> bool
    ensures { result ≡ dir.directory image.now }
{
    let end = directory_end(image);
    if image.len() < end {
        return false;
    }
    in_order(image.len(), end, &image[1..end])
}
