// What byte 3 of a frame does to an instance (document 01, "Frames"). All by value, but for the settings block, which
// an instance lends.
#![tactic(auto)]

mod answering;
mod controlling;
mod setting;

ghost use Rattle.command.specs.Answering.{acted};
ghost use Rattle.std.specs.Prelude.{◌≡◌};

pub use answering::{Acted, queried};
pub use controlling::controlled;
use opcode::Meaning;
use sensor::Instance;
pub use setting::{apply, changed, obeyed};

// What byte 3 does to the instance. By itself it keeps a call's stack small, and that the locals of its caller are
// cleared is seen to be needless.
#[tactic(auto, unfolding(crate::specs::Answering::acted, crate::specs::Answering::acted_by))]
#[inline(never)]
pub fn acted(x: Instance, opcode: u8, dtr0: u8) -> Acted
    ensures { result ≡ acted x opcode dtr0 }
{
    let instance = match opcode::meant(x.kind, opcode) {
        Meaning::Set(command) => obeyed(x, command, dtr0),
        Meaning::Act(control) => controlled(x, control),
        Meaning::Ask(query) => return queried(x, query, dtr0),
        Meaning::Ignored => x,
    };
    Acted {
        instance,
        dtr0,
        answer: None,
    }
}
