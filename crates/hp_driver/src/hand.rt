// The request in hand.
ghost use Rattle.std.specs.Prelude.{◌≡◌, ◌<◌, [], length, IfSome, IfNone};
ghost use Rattle.hp_core.specs.Requests.{asked_of};
ghost use Rattle.driver_machine.specs.World.{unit_at};
ghost use Rattle.driver_machine.specs.Sound.{Sound};
ghost use Rattle.hp_driver.specs.Hand.{hand_at};

use hp_core::{Asked, Core};

/// What the request in hand of a unit asks. None if its queue is empty.
pub(crate) fn asked_in_hand(core: &Core, u: u8) -> Option<Asked>
    requires sound { Sound core.now.world }
    requires unit { u < 32 }
    ensures some { IfSome result (λ asked. 0 < length (unit_at core.now.world u).queue) }
    ensures asked { IfSome result (λ asked. asked ≡ asked_of (hand_at core.now.world u)) }
    ensures none { IfNone result ((unit_at core.now.world u).queue ≡ []) }
{
    let slot = core.unit(u).head()?;
    Some(core.asked(slot))
}

/// The id of the request in hand of a unit that has one.
pub(crate) fn id_in_hand(core: &Core, u: u8) -> u32
    requires sound { Sound core.now.world }
    requires unit { u < 32 }
    requires some { 0 < length (unit_at core.now.world u).queue }
    ensures { result ≡ (hand_at core.now.world u).id }
{
    match asked_in_hand(core, u) {
        Some(asked) => asked.id,
        None => unreachable!(),
    }
}
