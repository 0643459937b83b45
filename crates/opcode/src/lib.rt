// The command or query that byte 3 of a frame means (document 01, "Frames"): one decision for each type over the opcode
// and its ranges, with the type's own opcodes first, in the order of the tables in specs/Meaning.antt. The range of the
// opcodes that all types have goes on to one decision that all share.
#![tactic(auto)]

ghost use Rattle.opcode.specs.Meaning.{both_cases, colour_meaning, is_setting, light_meaning, meant, meant_in, movement_meaning, occupancy_meaning};
ghost use Rattle.std.specs.Prelude.{◌≡◌};

// The arms below name the variants as the rows of the tables do.
use Command::*;
use Control::*;
use Meaning::*;
use Query::*;
use Variable::*;
use sensor::{Colour, Kind, Light, Movement, Occupancy};

// The setting commands of all types.
#[derive(Clone, Copy)]
pub enum Command {
    SetPriority,
    Enable,
    Disable,
    SetFilter,
    SetReport,
    SetDeadtime,
    SetHysteresis,
    SetHysteresisMin,
    SetHold,
    // Colour's set filter (M-104): what is out of range is no change.
    SetValidFilter,
}

// The instance control instructions: they act, and set nothing (M-100).
#[derive(Clone, Copy)]
pub enum Control {
    CatchMovement,
    CancelHold,
}

// What an instance is asked for that has one byte, or no answer, and latches nothing.
#[derive(Clone, Copy)]
pub enum Variable {
    SensorType,
    Resolution,
    Error,
    Status,
    Priority,
    Enabled,
    Filter,
    Report,
    Deadtime,
    Hysteresis,
    HysteresisMin,
    Hold,
    Catching,
}

// The queries of all types: a variable; inputValue, whose top byte is answered; the next of its bytes; and the
// parameter of a colour sensor that DTR0 numbers (M-104).
#[derive(Clone, Copy)]
pub enum Query {
    QueryVariable(Variable),
    QueryValue,
    QueryNext,
    QueryColourSensor,
}

#[derive(Clone, Copy)]
pub enum Meaning {
    Set(Command),
    Act(Control),
    Ask(Query),
    Ignored,
}

#[tactic(auto, unfolding(crate::specs::Meaning::light_meaning, crate::specs::Meaning::meant_in))]
pub fn light_meaning(opcode: u8) -> Meaning
    ensures { result ≡ light_meaning opcode }
{
    match opcode {
        Light::SET_REPORT => Set(SetReport),
        Light::SET_HYSTERESIS => Set(SetHysteresis),
        Light::SET_DEADTIME => Set(SetDeadtime),
        Light::SET_HYSTERESIS_MIN => Set(SetHysteresisMin),
        Light::QUERY_HYSTERESIS_MIN => Ask(QueryVariable(HysteresisMin)),
        Light::QUERY_DEADTIME => Ask(QueryVariable(Deadtime)),
        Light::QUERY_REPORT => Ask(QueryVariable(Report)),
        Light::QUERY_HYSTERESIS => Ask(QueryVariable(Hysteresis)),
        0x61..=0x90 => common_meaning(opcode, SetFilter),
        0x00..=0x2F | 0x34..=0x3B | 0x40..=0x60 | 0x91..=0xFF => Ignored,
    }
}

#[tactic(auto, unfolding(crate::specs::Meaning::meant_in, crate::specs::Meaning::occupancy_meaning))]
pub fn occupancy_meaning(opcode: u8) -> Meaning
    ensures { result ≡ occupancy_meaning opcode }
{
    match opcode {
        Occupancy::SET_REPORT => Set(SetReport),
        Occupancy::SET_DEADTIME => Set(SetDeadtime),
        Occupancy::QUERY_DEADTIME => Ask(QueryVariable(Deadtime)),
        Occupancy::QUERY_REPORT => Ask(QueryVariable(Report)),
        0x61..=0x90 => common_meaning(opcode, SetFilter),
        0x00..=0x21 | 0x24..=0x2B | 0x2D | 0x2F..=0x60 | 0x91..=0xFF => Ignored,
    }
}

#[tactic(auto, unfolding(crate::specs::Meaning::meant_in, crate::specs::Meaning::movement_meaning))]
pub fn movement_meaning(opcode: u8) -> Meaning
    ensures { result ≡ movement_meaning opcode }
{
    match opcode {
        Movement::CATCH => Act(CatchMovement),
        Movement::SET_HOLD => Set(SetHold),
        Occupancy::SET_REPORT => Set(SetReport),
        Occupancy::SET_DEADTIME => Set(SetDeadtime),
        Movement::CANCEL_HOLD => Act(CancelHold),
        Occupancy::QUERY_DEADTIME => Ask(QueryVariable(Deadtime)),
        Movement::QUERY_HOLD => Ask(QueryVariable(Hold)),
        Occupancy::QUERY_REPORT => Ask(QueryVariable(Report)),
        Movement::QUERY_CATCHING => Ask(QueryVariable(Catching)),
        0x61..=0x90 => common_meaning(opcode, SetFilter),
        0x00..=0x1F | 0x25..=0x2B | 0x30..=0x60 | 0x91..=0xFF => Ignored,
    }
}

#[tactic(auto, unfolding(crate::specs::Meaning::colour_meaning, crate::specs::Meaning::meant_in))]
pub fn colour_meaning(opcode: u8) -> Meaning
    ensures { result ≡ colour_meaning opcode }
{
    match opcode {
        Colour::SET_REPORT => Set(SetReport),
        Colour::SET_HYSTERESIS => Set(SetHysteresis),
        Colour::SET_DEADTIME => Set(SetDeadtime),
        Colour::SET_HYSTERESIS_MIN => Set(SetHysteresisMin),
        Colour::QUERY_COLOUR_SENSOR => Ask(QueryColourSensor),
        Colour::QUERY_HYSTERESIS_MIN => Ask(QueryVariable(HysteresisMin)),
        Colour::QUERY_DEADTIME => Ask(QueryVariable(Deadtime)),
        Colour::QUERY_REPORT => Ask(QueryVariable(Report)),
        Colour::QUERY_HYSTERESIS => Ask(QueryVariable(Hysteresis)),
        0x61..=0x90 => common_meaning(opcode, SetValidFilter),
        0x00..=0x3F | 0x44..=0x4A | 0x50..=0x60 | 0x91..=0xFF => Ignored,
    }
}

// The opcodes that all types have. filter: the command that SET_FILTER means to the type.
#[tactic(auto, unfolding(crate::specs::Meaning::meant_in))]
fn common_meaning(opcode: u8, filter: Command) -> Meaning
    ensures { result ≡ meant_in (both_cases filter) opcode }
{
    match opcode {
        Kind::SET_PRIORITY => Set(SetPriority),
        Kind::ENABLE => Set(Enable),
        Kind::DISABLE => Set(Disable),
        Kind::SET_FILTER => Set(filter),
        Kind::QUERY_TYPE => Ask(QueryVariable(SensorType)),
        Kind::QUERY_RESOLUTION => Ask(QueryVariable(Resolution)),
        Kind::QUERY_ERROR => Ask(QueryVariable(Error)),
        Kind::QUERY_STATUS => Ask(QueryVariable(Status)),
        Kind::QUERY_PRIORITY => Ask(QueryVariable(Priority)),
        Kind::QUERY_ENABLED => Ask(QueryVariable(Enabled)),
        Kind::QUERY_VALUE => Ask(QueryValue),
        Kind::QUERY_NEXT => Ask(QueryNext),
        Kind::QUERY_FILTER => Ask(QueryVariable(Filter)),
        0x00..=0x60 | 0x64..=0x67 | 0x69..=0x7F | 0x85 | 0x87..=0x8B | 0x8E..=0x8F | 0x91..=0xFF =>
            Ignored,
    }
}

// The decision of the instance's own type.
#[tactic(auto, unfolding(crate::specs::Meaning::meant))]
pub fn meant(kind: Kind, opcode: u8) -> Meaning
    ensures { result ≡ meant kind opcode }
{
    match kind {
        Kind::Light(_) => light_meaning(opcode),
        Kind::Occupancy(_) => occupancy_meaning(opcode),
        Kind::Movement(_) => movement_meaning(opcode),
        Kind::Colour(_) => colour_meaning(opcode),
    }
}

// A setting command, which needs its repeat (M-105).
#[tactic(auto, unfolding(crate::specs::Meaning::is_setting))]
pub fn is_setting(meaning: Meaning) -> bool
    ensures { result ≡ is_setting meaning }
{
    matches!(meaning, Set(_))
}
