// Patterns of short bursts, as windows of 11 bits. The highest bit is the first place.
ghost use Rattle.std.specs.Prelude.{◌≡◌, ◌-◌, ◌<◌, ◌^◌, ◌↔◌, IsTrue};
ghost use Rattle.fire_code.specs.Burst.{reversed as the_reversed};

// The lowest 11 bits in reverse order.
pub(crate) fn reversed(value: u16) -> u16
    requires { value < 2 ^ 11 }
    ensures { result ≡ the_reversed 11 value }
{
    let mut rest = value;
    let mut mirrored = 0;
    for _step in 0..11u32 {
        mirrored = 2 * mirrored + rest % 2;
        rest /= 2;
    }
    mirrored
}

// Whether a pattern that begins at the first place stays in the word.
pub fn fits(first: u16, pattern: u16) -> bool
    requires first { first < 4128 }
    requires pattern { pattern < 2 ^ 11 }
    ensures { IsTrue result ↔ (pattern < 2 ^ (4128 - first)) }
{
    first <= 4117 || pattern >> (4128 - first) == 0
}
