// Where a script is played.
ghost use Rattle.std.specs.Prelude.{◌≡◌, ◌≤◌, ℕ, List, ◌∷◌, [], OnOk, length};
ghost use Rattle.outside_traits.specs.Puts.{Puts};
ghost use Rattle.driver_machine.specs.Guards.{IsSetUp};
ghost use Rattle.script_runs.specs.Saying.{said_text};
ghost use Rattle.buffer_cache.specs.Passes.{kind_at};
ghost use Rattle.buffer_cache.specs.Calls.{MayUse, SyncsOrStops};
ghost use Rattle.cached_run.specs.Lines.{IsRoomy};
ghost use Rattle.cached_run.specs.Saying.{GivesAmong};
ghost use Rattle.cached_run.specs.Places.{Place, IsSilent, MayTouch, OnlySays, Touches, place, world_at};

use buffer_cache::{Cache, CacheFault, Stop, Subsystem};
use outside_traits::traits::{Packs, Sink, SinkFailed};
use pack_geometry::DriveKind;
use script_runs::desk::{Desk, write_answer};
use trace_replay::requests::AnswerKind;

/// A place where a script is played: a cache, the driver below it with packs and trace, and the sink for the answers.
pub(crate) trait Scene {
    /// The cache and the driver, and what packs, trace and sink tell.
    ghost at: { Self → Place };

    /// The names of what was lent for it.
    ghost loans: { Self → List ℕ };

    /// The kind of the drive of a unit.
    fn kind(&self, unit: u8) -> DriveKind
        requires { IsSetUp (world_at (at self.now)) unit }
        ensures { result ≡ kind_at (world_at (at self.now)) unit };

    /// Reads a block through the cache, or writes it if there are bytes for it.
    fn touch(
        &mut self,
        line: u64,
        unit: u8,
        block: u32,
        written: &Option<[u8; 512]>,
        into: &mut [u8; 512],
    ) -> Result<(), CacheFault>
        requires may { MayTouch line unit block (at self.old) }
        ensures touches { Touches line unit block written.now into.new result (at self.old) (at self.new) }
        ensures silent { IsSilent (at self.old) (at self.new) }
        ensures loans { loans self.new ≡ loans self.old };

    /// Writes back what is changed in the cache.
    fn sync(&mut self, line: u64) -> Result<(), Stop>
        requires line { 1 ≤ line }
        requires may { MayUse (at self.old).cache (at self.old).spot.driver }
        ensures syncs { SyncsOrStops line result (at self.old).cache (at self.new).cache (at self.old).spot (at self.new).spot }
        ensures silent { IsSilent (at self.old) (at self.new) }
        ensures loans { loans self.new ≡ loans self.old };

    /// Writes the answer to the request with an id, which came at a line.
    fn say(
        &mut self,
        line: u64,
        id: u32,
        kind: AnswerKind,
        desk: &mut Desk,
    ) -> Result<(), SinkFailed>
        requires desk { IsRoomy desk.old.gather desk.old.blocks.items }
        requires among { GivesAmong kind desk.old.blocks.items }
        ensures says { Puts (λ (p : Place). p.out_tells) (λ (p : Place). p.said) (λ (p : Place). p.out_faults) (at self.old) (at self.new) result (said_text line id kind desk.old.blocks.items) }
        ensures only { OnlySays (at self.old) (at self.new) }
        ensures desk { OnOk result (IsRoomy desk.new.gather desk.new.blocks.items) }
        ensures loans { loans self.new ≡ loans self.old };
}

/// A cache, a driver, packs, a sink for the answers and a trace, each of which was lent.
#[derive(Drop)]
pub(crate) struct Stand<'c, 's, 'p, 'o, 't, P: Packs, O: Sink, T: Sink> {
    pub(crate) cache: &'c mut Cache,
    pub(crate) subsystem: &'s mut Subsystem,
    pub(crate) packs: &'p mut P,
    pub(crate) out: &'o mut O,
    pub(crate) trace: &'t mut T,
}

impl<'c, 's, 'p, 'o, 't, P: Packs, O: Sink, T: Sink> Scene for Stand<'c, 's, 'p, 'o, 't, P, O, T> {
    ghost at = { λ s. place P.tells P.held P.faults O.tells O.taken O.faults T.tells T.taken T.faults s.cache.now s.subsystem.now s.packs.now s.out.now s.trace.now };

    ghost loans = { λ s. s.cache.ghost_name ∷ s.subsystem.ghost_name ∷ s.packs.ghost_name ∷ s.out.ghost_name ∷ s.trace.ghost_name ∷ [] };

    fn kind(&self, unit: u8) -> DriveKind {
        self.subsystem.kind(unit)
    }

    fn touch(
        &mut self,
        line: u64,
        unit: u8,
        block: u32,
        written: &Option<[u8; 512]>,
        into: &mut [u8; 512],
    ) -> Result<(), CacheFault> {
        match written {
            Some(from) => self.cache.write(
                self.subsystem,
                line,
                unit,
                block,
                from,
                self.packs,
                self.trace,
            ),
            None => self.cache.read(
                self.subsystem,
                line,
                unit,
                block,
                into,
                self.packs,
                self.trace,
            ),
        }
    }

    fn sync(&mut self, line: u64) -> Result<(), Stop> {
        self.cache
            .sync(self.subsystem, line, self.packs, self.trace)
    }

    fn say(
        &mut self,
        line: u64,
        id: u32,
        kind: AnswerKind,
        desk: &mut Desk,
    ) -> Result<(), SinkFailed> {
        write_answer(line, id, kind, desk, self.out)
    }
}
