// One of two values by a test, with no branch at the caller.
ghost use Rattle.std.specs.Prelude.{◌≡◌};
ghost use Rattle.bits.specs.Pick.{pick};

pub fn select<T: Copy>(t: bool, x: T, y: T) -> T
    ensures { result ≡ pick t x y }
{
    if t { x } else { y }
}
