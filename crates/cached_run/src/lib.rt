//! The player of scripts for the cache. Each request of a script is answered at its own line, block by block through a cache with
//! delayed writes. After the last line, everything that is changed goes to the packs.
#![tactic(auto)]

mod bench;
mod lines;
mod play;
mod requests;
mod scene;

pub use play::play_cached;
pub use script_runs::PlayFault as CachedPlayFault;
