// A line by its number.
ghost use Rattle.std.specs.Prelude.{◌≡◌, true, ◌<◌};
ghost use Rattle.image.specs.Directory as dir;
ghost use Rattle.image.specs.Check as spec;

// Line i as its part of the image: the directory, which passed, is not tested again for each line.
pub fn line_at(image: &[u32], i: u32) -> &[u32]
    requires { (dir.directory image.now ≡ true) × (i < dir.line_count image.now) }
    ensures { result.now ≡ spec.line_at image.now i }
{
    let pair = 1 + 2 * i as usize;
    let offset = image[pair] as usize;
    let end = offset + image[pair + 1] as usize;
    &image[offset..end]
}
