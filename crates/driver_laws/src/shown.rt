//! The replay of the trace shows what the driver does: the lines of the driver's calls follow there (`trace`), and what a
//! drain comes to there (`drains`). The functions here do nothing: each stands for a law.
//!
//! What runs of the driver leave of its packs (`runs`), and how far their writes reach (`reach`).
//!
//! For which map of blocks the driver stands between any two acts (`bytes`), and that it is quiet after a request that was waited for (`quiet`).

pub mod bytes;
pub mod drains;
pub mod quiet;
pub mod reach;
pub mod runs;
pub mod trace;
