ghost use Rattle.std.specs.Prelude.{◌≡◌};
ghost use Rattle.hp_exercise.specs.Exercise.{unit_of, block_of, place_of, count_of, seq_of, offset_of, times_of, choice_of};

/// A unit: 0, 1 or 8.
pub fn unit(word: u64) -> u64
    ensures { result ≡ unit_of word }
{
    match (word >> 3) % 3 {
        0 => 0,
        1 => 1,
        _ => 8,
    }
}

/// A block, below 15,000.
pub fn block(word: u64) -> u64
    ensures { result ≡ block_of word }
{
    (word >> 8) % 15_000
}

/// A place of a noise, below 4,000.
pub fn place(word: u64) -> u64
    ensures { result ≡ place_of word }
{
    (word >> 16) % 4_000
}

/// A number of blocks, 1 to 16.
pub fn count(word: u64) -> u64
    ensures { result ≡ count_of word }
{
    1 + (word >> 32) % 16
}

/// The start of a sequence, up to 255.
pub fn seq(word: u64) -> u64
    ensures { result ≡ seq_of word }
{
    (word >> 40) % 256
}

/// An offset into a frame, up to 511.
pub fn offset(word: u64) -> u64
    ensures { result ≡ offset_of word }
{
    (word >> 48) % 512
}

/// How often a fault strikes, 1 to 3.
pub fn times(word: u64) -> u64
    ensures { result ≡ times_of word }
{
    1 + (word >> 5) % 3
}

/// Which line it is, below 8.
pub(crate) fn choice(word: u64) -> u64
    ensures { result ≡ choice_of word }
{
    word % 8
}
