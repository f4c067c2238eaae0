//! The ends of the programs, over files of the working folder and a full disk: each status, and what the programs print on standard
//! error. There are also wrong ends, which the contract of `hpsim_run::end_status` rules out.
#![tactic(auto)]

ghost use Rattle.end_rows.specs.Wrong.{NothingRun, NothingListed};

#[cfg(test)]
mod rows;
#[cfg(test)]
mod simulator;
#[cfg(test)]
mod views;

/// The contract rules out an end at which nothing was run: one whose script was not read, and one that has the status of words for
/// which there was no memory. The function does nothing: its contract is the law.
pub fn nothing_run()
    ensures unread { NothingRun }
    ensures unlisted { NothingListed }
{}
