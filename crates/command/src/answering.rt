// The queries, and the latch of inputValue.
ghost use Rattle.command.specs.Answering.{answered, byte_at, latched, queried, status, value_of};
ghost use Rattle.std.specs.Prelude.{◌≡◌};

use opcode::{Query, Variable};
use sensor::{Instance, Latch};

// What byte 3 leaves: the instance, DTR0, and what is answered.
#[derive(Clone, Copy)]
pub struct Acted {
    pub instance: Instance,
    pub dtr0: u8,
    pub answer: Option<u8>,
}

// What is answered of an inputValue, and what is left of it.
#[derive(Clone, Copy)]
struct Piece {
    answer: Option<u8>,
    latch: Latch,
}

// A query changes nothing but the latch and, where it is the colour query, DTR0, which is the device's and comes beside
// the instance.
#[tactic(auto, unfolding(crate::specs::Answering::colour_answer, crate::specs::Answering::counted_up, crate::specs::Answering::only_if, crate::specs::Answering::queried))]
pub fn queried(x: Instance, query: Query, dtr0: u8) -> Acted
    ensures { result ≡ queried x query dtr0 }
{
    match query {
        Query::QueryVariable(variable) => Acted {
            instance: x,
            dtr0,
            answer: value_of(x, variable),
        },
        Query::QueryValue => {
            let value = Latch {
                left: widen::input_bytes(x.kind.resolution()),
                bytes: x.kind.input(),
            };
            answered(x, latched(value), dtr0)
        }
        Query::QueryNext => answered(x, latched(x.latch), dtr0),
        Query::QueryColourSensor => Acted {
            instance: x,
            dtr0: dtr0.wrapping_add(1),
            answer: (dtr0 < rgb::PARAMETERS).then_some(rgb::parameter(dtr0)),
        },
    }
}

// With a byte of inputValue answered.
#[tactic(auto, unfolding(crate::specs::Answering::answered))]
fn answered(mut x: Instance, piece: Piece, dtr0: u8) -> Acted
    ensures { result ≡ answered x piece dtr0 }
{
    x.latch = piece.latch;
    Acted {
        instance: x,
        dtr0,
        answer: piece.answer,
    }
}

// The top of the bytes that are left, and the rest latched; none when used up.
#[tactic(auto, unfolding(crate::specs::Answering::latched))]
fn latched(latch: Latch) -> Piece
    ensures { result ≡ latched latch.bytes latch.left }
{
    match latch.left.checked_sub(1) {
        None => Piece {
            answer: None,
            latch,
        },
        Some(left) => Piece {
            answer: Some(byte_at(latch.bytes, left)),
            latch: Latch { left, ..latch },
        },
    }
}

#[tactic(auto, unfolding(crate::specs::Answering::only_if, crate::specs::Answering::value_of))]
fn value_of(x: Instance, variable: Variable) -> Option<u8>
    ensures { result ≡ value_of x variable }
{
    match variable {
        Variable::SensorType => Some(x.kind.sensor_type()),
        Variable::Resolution => Some(x.kind.resolution()),
        Variable::Error => x.failed.then_some(1),
        Variable::Status => Some(status(x.failed, x.settings.enabled)),
        Variable::Priority => Some(x.settings.priority),
        Variable::Enabled => x.settings.enabled.then_some(0xFF),
        Variable::Filter => Some(x.settings.filter),
        Variable::Report => Some(x.settings.report),
        Variable::Deadtime => Some(x.settings.deadtime),
        Variable::Hysteresis => Some(x.settings.hysteresis),
        Variable::HysteresisMin => Some(x.settings.minimum),
        Variable::Hold => Some(x.settings.hold),
        Variable::Catching => x.kind.catching().then_some(0xFF),
    }
}

// Bit 0 error, bit 1 enabled.
#[tactic(auto, unfolding(crate::specs::Answering::status))]
fn status(failed: bool, enabled: bool) -> u8
    ensures { result ≡ status failed enabled }
{
    u8::from(failed) + 2 * u8::from(enabled)
}

// Byte k of a value, counted from the lowest.
#[tactic(auto, unfolding(crate::specs::Answering::byte_at))]
fn byte_at(v: u32, k: u8) -> u8
    ensures { result ≡ byte_at v k }
{
    v.to_le_bytes().get(usize::from(k)).copied().unwrap_or(0)
}
