// The instance control instructions (M-100): each changes the sensor and nothing else.
ghost use Rattle.command.specs.Controlling.{controlled};
ghost use Rattle.std.specs.Prelude.{◌≡◌};

use opcode::Control;
use sensor::Instance;

#[tactic(auto, unfolding(crate::specs::Controlling::controlled, crate::specs::Controlling::controlled_kind))]
pub fn controlled(mut x: Instance, control: Control) -> Instance
    ensures { result ≡ controlled x control }
{
    match control {
        Control::CatchMovement => x.kind = x.kind.caught(x.settings),
        Control::CancelHold => x.kind = x.kind.cancelled(),
    }
    x
}
