//! Which traces are legal: the rules of a trace of the whole subsystem. They speak only of what is seen of a run: the
//! script, the packs, and the lines of the trace with the answers that they make. The definitions stand in `specs/`, and
//! know nothing of how a driver works. The functions of this file do nothing: each stands for a law. `requests` has what is
//! asked and how it is answered. `seek_engine` and `retry_offsets` have two choices that the rules cite, also as code.
//!
//! Defined in `specs/`: which traces are legal, over the script, the packs and the lines alone, as one state with a rule for each aspect.
//!
//! What is proved: `parts_law`, `frame_law`, `bytes_law`, `condition_law`. `one_trace_law`: for one script over the same
//! packs at most one trace is legal. `cause_law`: each answer has exactly its cause. `bounds_law`: a request that meets
//! only clean sectors and is answered ok has one transfer command and at most one search.
#![tactic(auto)]

pub mod requests;
pub mod retry_offsets;
pub mod seek_engine;

ghost use Rattle.trace_replay.specs.Rules.{KeepsEach, FollowOn};
ghost use Rattle.trace_replay.specs.Bytes.{ReadsAsTold, RepairsBursts};
ghost use Rattle.trace_replay.specs.Frames.{ChangesOneUnit, ChangesOneAdapter, ChangesOnePack, ChangesNoMark};
ghost use Rattle.trace_replay.specs.Bounds.{OneTransfer};
ghost use Rattle.trace_replay.specs.Conditions.{IsAsSaid};
ghost use Rattle.trace_replay.specs.Causes.{AreExplained, AreUnusable};
ghost use Rattle.trace_replay.specs.Single.{OneStep, OneTrace};
ghost use Rattle.trace_replay.specs.Runs.{OneRun, OneText, OnePacks, RunExplained};

pub use hardware_table::{FaultKind, Moved, NoiseSpan};

/// A moment may come exactly if it keeps each rule. If a list of moments is divided into two parts anywhere, the list
/// follows exactly if the first part follows and the second part follows after the first.
pub fn parts_law()
    ensures rules { KeepsEach }
    ensures parts { FollowOn }
{}

/// A line of a unit changes no other unit, adapter or pack, and no mark.
pub fn frame_law()
    ensures unit { ChangesOneUnit }
    ensures adapter { ChangesOneAdapter }
    ensures pack { ChangesOnePack }
    ensures mark { ChangesNoMark }
{}

/// A sector is read as the hardware table says, and a burst that was repaired gives the bytes of the sector.
pub fn bytes_law()
    ensures read { ReadsAsTold }
    ensures repaired { RepairsBursts }
{}

/// Whether a unit is online, and whether it is locked, is what the script said last of that unit. Before the script says
/// anything of a unit, the unit is online and not locked.
pub fn condition_law()
    ensures { IsAsSaid }
{}

/// The lines of a request, the state of its unit when its end comes, and the table of its pack explain its answer: it is
/// an error of a cause exactly if that cause holds, and ok exactly if all blocks of the request are done. If a request
/// ends unforwarded, its first block that is not done has no home on its pack.
pub fn cause_law()
    ensures explained { AreExplained }
    ensures run { RunExplained }
    ensures unusable { AreUnusable }
{}

/// A request that is answered ok, and whose sectors are all clean, has one transfer command and at most one search.
pub fn bounds_law()
    ensures { OneTransfer }
{}

/// From one state at most one line may come. Hence for one script over the same packs at most one trace is legal, and so
/// its text, its answers, their bytes and the packs that it leaves are determined.
pub fn one_trace_law()
    ensures step { OneStep }
    ensures trace { OneTrace }
    ensures run { OneRun }
    ensures text { OneText }
    ensures packs { OnePacks }
{}
