// Free frames as bits: bit i of word j is on if frame 64 * j + i is free.
ghost use Rattle.std.specs.Prelude.{◌≡◌, ◌<◌, ◌≤◌, ◌/◌, ◌∷◌, ℕ, length, take, drop, slice_index};
ghost use Rattle.main_memory.specs.Frames.{free_frames, with_frame, with_frames};

use arrayvec::ArrayVec;

// Takes the lowest free frame. The words before `from` have no bit on.
pub(crate) fn take_lowest(words: &mut [u64; 256], from: usize) -> u16
    requires none_before { (k : ℕ) → k < from → slice_index words.old k ≡ 0 }
    requires some { 0 < length (free_frames words.old) }
    ensures taken { free_frames words.old ≡ result ∷ free_frames words.new }
    ensures none_before { (k : ℕ) → k < result / 64 → slice_index words.new k ≡ 0 }
    ensures small { result < 16384 }
{
    for index in from..256 {
        let word = words[index];
        if word != 0 {
            let bit = word.trailing_zeros();
            words[index] = word & !(1 << bit);
            return 64 * index as u16 + bit as u16;
        }
    }
    unreachable!()
}

// Takes the lowest free frames, in ascending order.
pub(crate) fn take_frames(words: &mut [u64; 256], count: u32) -> ArrayVec<u16, 128>
    requires fits { count ≤ 128 }
    requires enough { count ≤ length (free_frames words.old) }
    ensures taken { result.items ≡ take count (free_frames words.old) }
    ensures left { free_frames words.new ≡ drop count (free_frames words.old) }
{
    let mut frames = ArrayVec::new();
    let mut word = 0;
    for _taken in 0..count {
        let frame = take_lowest(words, word);
        word = usize::from(frame) / 64;
        frames.push(frame);
    }
    frames
}

// Makes a frame free.
pub(crate) fn give_frame(words: &mut [u64; 256], frame: u16)
    requires { frame < 16384 }
    ensures { free_frames words.new ≡ with_frame frame (free_frames words.old) }
{
    words[usize::from(frame) / 64] |= 1 << (frame % 64);
}

// Makes frames free.
pub(crate) fn give_frames(words: &mut [u64; 256], frames: &[u16])
    requires { (i : ℕ) → i < length frames.now → slice_index frames.now i < 16384 }
    ensures { free_frames words.new ≡ with_frames frames.now (free_frames words.old) }
{
    for frame in frames {
        give_frame(words, *frame);
    }
}
