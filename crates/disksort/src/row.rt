// A row of bits in words of 64: one bit for each cylinder.
ghost use Rattle.std.specs.Prelude.{◌≡◌, ◌+◌, ◌*◌, ◌<◌, ◌≤◌, ◌==◌, ℕ, true, false, length, IfSome, IfNone};
ghost use Rattle.disksort.specs.Buckets.{has_bit, with_bit};

/// Whether a cylinder's bit is on.
pub(crate) fn is_on(words: &[u64], cylinder: u32) -> bool
    requires { cylinder < 64 * length words.now }
    ensures { result ≡ has_bit words.now cylinder }
{
    let word = words[(cylinder / 64) as usize];
    (word >> (cylinder % 64)) & 1 == 1
}

/// Sets the bit of a cylinder.
pub(crate) fn set_bit(words: &mut [u64], cylinder: u32)
    requires { cylinder < 64 * length words.old }
    ensures { has_bit words.new ≡ with_bit (has_bit words.old) cylinder true }
{
    words[(cylinder / 64) as usize] |= 1 << (cylinder % 64);
}

/// Clears the bit of a cylinder.
pub(crate) fn clear_bit(words: &mut [u64], cylinder: u32)
    requires { cylinder < 64 * length words.old }
    ensures { has_bit words.new ≡ with_bit (has_bit words.old) cylinder false }
{
    words[(cylinder / 64) as usize] &= !(1 << (cylinder % 64));
}

/// The lowest cylinder whose bit is on. None if no bit is on.
pub(crate) fn lowest(words: &[u64]) -> Option<u32>
    requires { length words.now ≤ 16 }
    ensures on { IfSome result (λ c. has_bit words.now c ≡ true) }
    ensures lowest { IfSome result (λ c. (k : ℕ) → k < c → has_bit words.now k ≡ false) }
    ensures none { IfNone result ((k : ℕ) → has_bit words.now k ≡ false) }
{
    for (i, word) in words.iter().enumerate() {
        if *word != 0 {
            return Some(64 * i as u32 + word.trailing_zeros());
        }
    }
    None
}
