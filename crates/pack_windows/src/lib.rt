//! Packs that are read ahead. For each unit a window of its image and one of its marks are kept in memory, and each
//! window is read in one call. A call gives what the packs behind the windows hold.
//!
//! What is proved: `WindowPacks` reads images and marks ahead. Each of its calls does what `Packs` says of the packs
//! behind the windows, and the windows cannot be seen, since the value of `WindowPacks` is those packs. The invariant
//! says that, if the packs tell, each window has exactly the bytes that its unit's image or marks hold there. A window
//! follows each write, and a write that fails empties it.
//!
//! Only tested, in `pack_rows`: that reading ahead makes fewer calls.
#![tactic(auto)]

mod window;
pub mod window_packs;
