// The check call: the first refusal of an image, or none.
ghost use Rattle.std.specs.Prelude.{◌≡◌, true};
ghost use Rattle.image.specs.Directory.{directory};
ghost use Rattle.image.specs.Check as spec;

use crate::directory::{directory_passes, line_count};
use crate::lines::line_at;
use line::check::check_whole;

// The words of an image, at most.
pub const MAX_WORDS: usize = 16384;

// What the check call reports, as C gets it: 01's code, and its line and slot.
#[derive(Clone, Copy)]
pub struct Answer {
    pub code: u32,
    pub line: u32,
    pub slot: u32,
}

// Line by line. A loop, because a call for each line would take stack in proportion to the image.
fn check_lines(image: &[u32]) -> Answer
    requires { directory image.now ≡ true }
    ensures { result ≡ spec.line_by_line 0 (spec.lines_of image.now) }
{
    for k in 0..line_count(image) {
        if let Err(broken) = check_whole(line_at(image, k)) {
            return Answer {
                code: broken.rule.code(),
                line: k,
                slot: broken.slot,
            };
        }
    }
    Answer {
        code: 0,
        line: 0,
        slot: 0,
    }
}

#[tactic(auto, using(crate::proofs::Walk::check_long, crate::proofs::Walk::check_bad, crate::proofs::Walk::check_walked))]
pub fn check(image: &[u32]) -> Answer
    ensures { result ≡ spec.check_of image.now }
{
    if MAX_WORDS < image.len() {
        return Answer {
            code: 1,
            line: 0,
            slot: 0,
        };
    }
    if directory_passes(image) {
        return check_lines(image);
    }
    Answer {
        code: 2,
        line: 0,
        slot: 0,
    }
}
