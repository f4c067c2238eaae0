// Frames of main memory: how many buffers take, which ones, where blocks lie in them, and which an adapter maps.
use main_memory::{MainMemory, NoFrames, frames_of, to_bus};
use mba_adapter::Adapter;
use std::alloc::Global;

// Whether 129 times 127 frames are lent, then no two, and then the last one.
fn runs_out(alloc: Global) -> Option<bool> {
    let mut memory = MainMemory::new(alloc).ok()?;
    for _ in 0..129 {
        if memory.lend(127, 0, 512).is_err() {
            return None;
        }
    }
    let is_refused = match memory.lend(1, 5, 512) {
        Ok(_) => false,
        Err(NoFrames { free }) => free == 1,
    };
    Some(is_refused && memory.lend(1, 0, 512).is_ok())
}

#[test]
fn frames_run_out(rt: HostRuntime) {
    assert!(rt; runs_out(rt.alloc()) == Some(true));
}

// How many frames 127 blocks take that begin at place 300 of a frame. The last block has `last` bytes.
fn frames_taken(alloc: Global, last: u32) -> Option<usize> {
    let mut memory = MainMemory::new(alloc).ok()?;
    let buffer = memory.lend(127, 300, last.clamp(1, 512)).ok()?;
    Some(frames_of(&buffer).len())
}

#[test]
fn frames_by_the_last_byte(rt: HostRuntime) {
    for (last, count) in [(212, 127), (213, 128)] {
        assert!(rt; frames_taken(rt.alloc(), last) == Some(count));
    }
}

// A block of these bytes, of which four differ: those at places 0, 299, 300 and 511.
fn marked_block(byte: u8, edges: [u8; 4]) -> [u8; 512] {
    let mut bytes = [byte; 512];
    bytes[0] = edges[0];
    bytes[299] = edges[1];
    bytes[300] = edges[2];
    bytes[511] = edges[3];
    bytes
}

// Whether a block is one frame from place 300 on, and the next one up to there.
fn is_between(bytes: &[u8; 512], frame: &[u8; 512], next: &[u8; 512]) -> bool {
    bytes[..212] == frame[300..] && bytes[212..] == next[..300]
}

// Whether two blocks from place 300 on lie in the first three frames, and the window on the second one is the end of the second frame and
// the front of the third.
fn spans_two_frames(alloc: Global) -> Option<bool> {
    let mut memory = MainMemory::new(alloc).ok()?;
    let whole = memory.lend(3, 0, 512).ok()?;
    let second = marked_block(1, [2, 3, 4, 5]);
    let third = marked_block(6, [7, 8, 9, 10]);
    memory.store(&whole, 1, &second);
    memory.store(&whole, 2, &third);
    memory.give_back(whole);
    let buffer = memory.lend(2, 300, 512).ok()?;
    let are_lowest = frames_of(&buffer) == [0u16, 1, 2].as_slice();
    let mut bytes = [0; 512];
    memory.window(&to_bus(buffer), 1).copy_out(&mut bytes);
    Some(are_lowest && is_between(&bytes, &second, &third))
}

#[test]
fn window_over_two_frames(rt: HostRuntime) {
    assert!(rt; spans_two_frames(rt.alloc()) == Some(true));
}

// Whether the first map registers hold these frames, and all others 0.
fn maps(adapter: &Adapter, frames: &[u32]) -> bool {
    (0..=255u8).all(|j| adapter.map_register(j) == frames.get(usize::from(j)).copied().unwrap_or(0))
}

// Whether a load of two blocks from place 300 on maps these frames, where so many frames are lent before, and the last block has so many
// bytes; five whole blocks were loaded in their place.
fn is_mapped(alloc: Global, last: u32, frames: &[u32]) -> Option<bool> {
    let mut memory = MainMemory::new(alloc).ok()?;
    let longer = memory.lend(5, 0, 512).ok()?;
    let buffer = memory.lend(2, 300, last.clamp(1, 512)).ok()?;
    let mut adapter = Adapter::new();
    let _longer = adapter.load(longer, 0, 5);
    let fifth = adapter.map_register(4);
    let _buffer = adapter.load(buffer, 0, 2);
    Some(fifth == 4 && maps(&adapter, frames))
}

// How many bytes the last block has, and the frames that are mapped.
static MAPPED: [(u32, &[u32]); 3] = [(512, &[5, 6, 7]), (213, &[5, 6, 7]), (212, &[5, 6])];

#[test]
fn loaded_map_registers(rt: HostRuntime) {
    for (last, frames) in &MAPPED {
        assert!(rt; is_mapped(rt.alloc(), *last, frames) == Some(true));
    }
}
