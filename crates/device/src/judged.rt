// M-105: a frame is judged before it acts.
ghost use Rattle.device.specs.Frame.{as_repeat, judged};
ghost use Rattle.std.specs.Prelude.{◌≡◌};

use crate::model::Model;
use crate::pairs::Frame;

// Whom a frame counts for, what it means there, and so whether it needs its repeat. That it is nobody is one of four
// answers: an Option around the other three would be asked for twice.
#[derive(Clone, Copy)]
pub enum Judged {
    // It loads DTR0.
    Load,
    // A setting command to that instance: it needs its repeat.
    Sets(u8),
    // Anything else to that instance: it acts at once.
    Acts(u8),
    // It is ignored.
    Nobody,
}

impl Judged {
    // A setting command that is the repeat acts.
    #[tactic(auto, unfolding(crate::specs::Frame::as_repeat))]
    pub fn as_repeat(self, repeat: bool) -> Judged
        ensures { result ≡ as_repeat self repeat }
    {
        match self {
            Judged::Sets(instance) if repeat => Judged::Acts(instance),
            other => other,
        }
    }
}

#[tactic(auto, using(crate::proofs::Laws::instance_none), unfolding(crate::specs::Frame::judged, crate::specs::Frame::counts))]
pub fn judge(model: &Model, frame: Frame) -> Judged
    ensures { result ≡ judged model.now frame.first frame.second frame.third }
{
    if frame.loads() {
        return Judged::Load;
    }
    if !frame.names_instance() {
        return Judged::Nobody;
    }
    let number = frame.second;
    match model.instance(number) {
        None => Judged::Nobody,
        Some(x) if opcode::is_setting(opcode::meant(x.kind, frame.third)) => Judged::Sets(number),
        Some(_) => Judged::Acts(number),
    }
}
