//! How far a job has come.

use crate::job::Job;

/// A job, how many of its blocks are done, and the failures at the sector with which its segment begins.
#[derive(Clone, Copy)]
pub(crate) struct Progress {
    pub(crate) job: Job,
    pub(crate) done: u32,
    pub(crate) failures: u32,
}
