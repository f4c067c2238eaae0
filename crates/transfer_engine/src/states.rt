//! The states of a transfer, as values that are moved: by own sectors from the job's beginning, at a replacement, or by
//! own sectors again behind a replacement.

use crate::progress::Progress;
use std::marker::Model;
use thiserror::Error;

/// A transfer by own sectors that was never forwarded. Contracts see it as the job, the blocks done and the failures.
#[derive(Drop)]
pub struct Direct {
    pub(crate) progress: Progress,
}

impl Model for Direct {
    ghost use Rattle.std.specs.Prelude.{None};
    ghost use Rattle.transfer_engine.specs.State.{TransferState, IsTransfer, seen_as};

    ghost Value = { TransferState };

    ghost view = { λ t. seen_as t.progress None };

    ghost invariant = { λ t. IsTransfer (seen_as t.progress None) };
}

/// A transfer of one replacement sector. Contracts see it as the job, the blocks done, the failures and the index of the
/// entry in the pack's table.
#[derive(Drop)]
pub struct Forwarded {
    pub(crate) progress: Progress,
    pub(crate) index: u8,
}

impl Model for Forwarded {
    ghost use Rattle.std.specs.Prelude.{Some};
    ghost use Rattle.transfer_engine.specs.State.{TransferState, IsTransfer, seen_as};

    ghost Value = { TransferState };

    ghost view = { λ t. seen_as t.progress (Some t.index) };

    ghost invariant = { λ t. IsTransfer (seen_as t.progress (Some t.index)) };
}

/// A transfer of the remaining blocks, by own sectors. Contracts see it as the job, the blocks done and the failures.
#[derive(Drop)]
pub struct Continued {
    pub(crate) progress: Progress,
}

impl Model for Continued {
    ghost use Rattle.std.specs.Prelude.{None};
    ghost use Rattle.transfer_engine.specs.State.{TransferState, IsTransfer, seen_as};

    ghost Value = { TransferState };

    ghost view = { λ t. seen_as t.progress None };

    ghost invariant = { λ t. IsTransfer (seen_as t.progress None) };
}

/// A transfer whose next transfer command is still to come.
#[derive(Drop)]
pub enum Transfer {
    Direct(Direct),
    Forwarded(Forwarded),
    Continued(Continued),
}

/// What follows when blocks are done: the request is complete, or there are blocks left.
#[derive(Drop)]
pub enum Next {
    Finished,
    More(Continued),
}

/// A marked sector has no replacement: the sector is itself a replacement, or its place is not listed.
#[derive(Debug, Drop, Error)]
#[error("unforwarded after {done} blocks")]
pub struct Unforwarded {
    /// How many blocks of the request are done, from the first one on.
    pub done: u32,
}

/// The tries at one physical sector are used up.
#[derive(Debug, Drop, Error)]
#[error("exhausted after {done} blocks")]
pub struct Exhausted {
    /// How many blocks of the request are done, from the first one on.
    pub done: u32,
}
