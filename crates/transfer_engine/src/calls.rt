//! What each way in which a segment ends makes of a transfer.
ghost use Rattle.std.specs.Prelude.{◌≡◌, ◌≢◌, ◌<◌, ◌≤◌, ◌+◌, ◌↔◌, IfOk, IfErr, IfSome, IsErr, Option};
ghost use Rattle.std.specs.Option.{option_copied};
ghost use Rattle.trace_replay.specs.declared.retry_offsets.Step.TheVariants.{GiveUp};
ghost use Rattle.transfer_engine.specs.State.{TransferState, IsJob, IsTransfer, begun, seen_as, segment_of, failures_after, failed};
ghost use Rattle.transfer_engine.specs.Calls.{state_of, with_state, next_at, after_done, after_corrected, entry_for, after_bad_sector, step_for};

use crate::job::{Job, Segment};
use crate::progress::Progress;
use crate::states::{Continued, Direct, Exhausted, Forwarded, Next, Transfer, Unforwarded};
use bad144_table::{BadTable, entries, position};
use pack_geometry::{place_of, replacement};
use trace_replay::retry_offsets::{Step, next_step};

/// A job at its beginning: no block is done, and no try has failed.
pub fn begin(job: Job) -> Direct
    requires { IsJob job }
    ensures { result ≡ begun job }
{
    Direct {
        progress: Progress {
            job,
            done: 0,
            failures: 0,
        },
    }
}

impl Transfer {
    // How far the job has come, and the entry of the table whose replacement is at hand.
    fn parts(&self) -> (Progress, Option<u8>)
        ensures parts { seen_as result.0 result.1 ≡ state_of self.now }
        ensures valid { IsTransfer (state_of self.now) }
    {
        match self {
            Transfer::Direct(direct) => (direct.progress, None),
            Transfer::Forwarded(forwarded) => (forwarded.progress, Some(forwarded.index)),
            Transfer::Continued(continued) => (continued.progress, None),
        }
    }

    /// What the next transfer command moves: the blocks from the first one that is not done to the end of the job, or one replacement sector.
    pub fn segment(&self) -> Segment
        ensures segment { result ≡ segment_of (state_of self.now) }
        ensures valid { IsTransfer (state_of self.now) }
    {
        let (Progress { job, done, .. }, index) = self.parts();
        match index {
            None => Segment {
                block: job.first + done,
                skip: done,
                count: job.count - done,
            },
            Some(index) => Segment {
                block: replacement(job.kind, u32::from(index)),
                skip: done,
                count: 1,
            },
        }
    }

    /// How many blocks of the job are done, from the first one on.
    pub fn done(&self) -> u32
        ensures done { result ≡ (state_of self.now).done }
        ensures valid { IsTransfer (state_of self.now) }
    {
        self.parts().0.done
    }

    /// How many tries failed at the sector with which the segment begins, at most 27.
    pub fn failures(&self) -> u32
        ensures failures { result ≡ (state_of self.now).failures }
        ensures valid { IsTransfer (state_of self.now) }
    {
        self.parts().0.failures
    }

    /// The whole segment is done. The result is Finished exactly if the request is complete.
    pub fn on_done(self) -> Next
        ensures { result ≡ after_done (state_of self) }
    {
        let done = self.done() + self.segment().count;
        next(self.parts().0, done)
    }

    /// `clean` sectors of the segment are done, and also the one behind them, which was repaired. The result is Finished
    /// exactly if the request is complete.
    pub fn on_corrected(self, clean: u32) -> Next
        requires { clean < (segment_of (state_of self)).count }
        ensures { result ≡ after_corrected clean (state_of self) }
    {
        let done = self.done() + clean + 1;
        next(self.parts().0, done)
    }

    // The entry whose replacement takes the place of the sector behind `clean` others.
    fn entry(&self, clean: u32, table: Option<&BadTable>) -> Option<u8>
        requires { clean < (segment_of (state_of self.now)).count }
        ensures entry { result ≡ entry_for clean (option_copied table.entry) (state_of self.now) }
        ensures bound { IfSome result (λ i. i < 126) }
    {
        let (Progress { job, done, .. }, index) = self.parts();
        if index.is_some() {
            return None;
        }
        let table = table?;
        let place = place_of(job.kind, job.first + done + clean);
        let _count = entries(table);
        position(table, place)
    }

    /// The sector behind `clean` others is marked, and its replacement comes next. Unforwarded exactly if the sector is
    /// itself a replacement, or if its place is not listed in the table.
    pub fn on_bad_sector(
        self,
        clean: u32,
        table: Option<&BadTable>,
    ) -> Result<Forwarded, Unforwarded>
        requires { clean < (segment_of (state_of self)).count }
        ensures { result ≡ after_bad_sector clean (option_copied table.entry) (state_of self) }
    {
        let entry = self.entry(clean, table);
        let (Progress { job, done, .. }, _) = self.parts();
        let done = done + clean;
        let index = entry.ok_or(Unforwarded { done })?;
        Ok(Forwarded {
            progress: Progress {
                job,
                done,
                failures: 0,
            },
            index,
        })
    }

    /// The try at the sector behind `clean` others failed. After a step of the retry the same sector is tried again: a
    /// replacement stays at hand, and otherwise the segment begins at the sector that failed. Exhausted exactly at failure 28 at that sector.
    pub fn on_fault(self, clean: u32) -> Result<(Transfer, Step), Exhausted>
        requires { clean < (segment_of (state_of self)).count }
        ensures retry { IfOk result (λ retry. (retry.0 ≡ with_state self (failed clean (state_of self))) × (retry.1 ≡ step_for clean (state_of self))) }
        ensures never_last { IfOk result (λ retry. retry.1 ≢ GiveUp) }
        ensures exhausted { IfErr result (λ exhausted. exhausted ≡ record { done = (state_of self).done + clean }) }
        ensures exactly { IsErr result ↔ (failures_after clean (state_of self).failures ≡ 28) }
    {
        let progress = self.failed(clean);
        if progress.failures == 28 {
            return Err(Exhausted {
                done: progress.done,
            });
        }
        let step = next_step(progress.failures, !progress.job.write);
        Ok((self.with(progress), step))
    }

    // How far the job has come if a try behind `clean` sectors failed.
    fn failed(&self, clean: u32) -> Progress
        requires { clean < (segment_of (state_of self.now)).count }
        ensures state { seen_as result (state_of self.now).index ≡ failed clean (state_of self.now) }
        ensures some { 1 ≤ result.failures }
        ensures few { result.failures ≤ 28 }
        ensures valid { result.failures ≤ 27 → IsTransfer (seen_as result (state_of self.now).index) }
    {
        let (
            Progress {
                job,
                done,
                failures,
            },
            _,
        ) = self.parts();
        Progress {
            job,
            done: done + clean,
            failures: if clean == 0 { failures + 1 } else { 1 },
        }
    }

    // The same transfer with another progress.
    fn with(self, progress: Progress) -> Transfer
        requires { IsTransfer (seen_as progress (state_of self).index) }
        ensures { result ≡ with_state self (seen_as progress (state_of self).index) }
    {
        match self {
            Transfer::Direct(_) => Transfer::Direct(Direct { progress }),
            Transfer::Forwarded(forwarded) => Transfer::Forwarded(Forwarded {
                progress,
                index: forwarded.index,
            }),
            Transfer::Continued(_) => Transfer::Continued(Continued { progress }),
        }
    }
}

// This many blocks are done.
fn next(progress: Progress, done: u32) -> Next
    requires valid { IsJob progress.job }
    requires bound { done ≤ progress.job.count }
    ensures { (t : TransferState) → t.job ≡ progress.job → result ≡ next_at done t }
{
    if done == progress.job.count {
        return Next::Finished;
    }
    Next::More(Continued {
        progress: Progress {
            job: progress.job,
            done,
            failures: 0,
        },
    })
}
