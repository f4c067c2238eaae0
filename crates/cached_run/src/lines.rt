// A line of a script is played.
ghost use Rattle.std.specs.Prelude.{◌≡◌, ◌≤◌, None, Some, OnOk};
ghost use Rattle.buffer_cache.specs.Calls.{MayUse};
ghost use Rattle.cached_run.specs.Going.{syncs_at};
ghost use Rattle.cached_run.specs.Lines.{MayPlay, IsRoomy, input_at};
ghost use Rattle.cached_run.specs.Places.{MayAnswer, Plays, asked_with, plays_at, world_at};

use crate::requests::answer;
use crate::scene::Scene;
use script_reader::cached::{Asked, Line, Statement};
use script_runs::PlayFault;
use script_runs::desk::Desk;

/// Plays a request at a line. A write has a byte for its blocks.
fn play_request<S: Scene>(
    number: u64,
    asked: &Asked,
    fill: Option<u8>,
    scene: &mut S,
    desk: &mut Desk,
) -> Result<(), PlayFault>
    requires may { MayAnswer number asked.now (S.at scene.old) }
    requires desk { IsRoomy desk.old.gather desk.old.blocks.items }
    ensures plays { Plays (plays_at number (asked_with asked.now fill)) result (S.at scene.old) (S.at scene.new) }
    ensures desk { OnOk result (IsRoomy desk.new.gather desk.new.blocks.items) }
    ensures loans { S.loans scene.new ≡ S.loans scene.old }
{
    let kind = answer(scene, number, asked, fill, &mut desk.blocks)?;
    scene.say(number, asked.id, kind, desk)?;
    Ok(())
}

/// Plays a sync at a line.
pub(crate) fn play_sync<S: Scene>(number: u64, scene: &mut S) -> Result<(), PlayFault>
    requires line { 1 ≤ number }
    requires may { MayUse (S.at scene.old).cache (S.at scene.old).spot.driver }
    ensures plays { Plays (syncs_at number) result (S.at scene.old) (S.at scene.new) }
    ensures loans { S.loans scene.new ≡ S.loans scene.old }
{
    scene.sync(number)?;
    Ok(())
}

/// Plays a line of a script.
pub(crate) fn play_line<S: Scene>(
    line: &Line,
    scene: &mut S,
    desk: &mut Desk,
) -> Result<(), PlayFault>
    requires line { 1 ≤ line.now.number }
    requires may { MayUse (S.at scene.old).cache (S.at scene.old).spot.driver }
    requires ask { MayPlay (world_at (S.at scene.old)) line.now.statement }
    requires desk { IsRoomy desk.old.gather desk.old.blocks.items }
    ensures plays { Plays (input_at line.now) result (S.at scene.old) (S.at scene.new) }
    ensures desk { OnOk result (IsRoomy desk.new.gather desk.new.blocks.items) }
    ensures loans { S.loans scene.new ≡ S.loans scene.old }
{
    let number = u64::from(line.number);
    match line.statement {
        Statement::Unit { .. } => Ok(()),
        Statement::Read { asked } => play_request(number, &asked, None, scene, desk),
        Statement::Write { asked, fill } => play_request(number, &asked, Some(fill), scene, desk),
        Statement::Sync => play_sync(number, scene),
    }
}
