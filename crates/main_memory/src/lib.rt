//! Main memory: 16,384 frames of 512 bytes, the buffers that are lent from them, and the windows through which a buffer's
//! blocks are written.
//!
//! What is proved: contracts see the memory as its bytes and its ascending list of free frames, and a buffer as its
//! frames, its offset, its count of blocks and the number of bytes of its last block. `lend` gives the lowest free
//! frames, as many as the bytes reach, and is refused exactly if too few are free; no frame is lent twice; `give_back`
//! frees exactly the buffer's frames. `store`, `fetch` and a window read and write one block of a buffer, in one frame or
//! two, and leave every other byte; `fill` gives a byte only if all bytes of the block are that byte. A write to one
//! buffer leaves what every other lent buffer holds.
//!
//! Only tested, in `drive_rows`: worked values, beside their proofs.
#![tactic(auto)]

mod bits;
mod buffer;
mod bytes;
mod frames;
mod memory;
mod span;
mod window;

pub use buffer::{Buffer, Bus, Cpu, frames_of, to_bus, to_cpu};
pub use memory::{FRAMES, MainMemory, NoFrames};
pub use window::Window;
