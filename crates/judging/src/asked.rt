// The record at the front of what is left of a session: what it asks for, or by which number it is refused. All numbers but 9.
ghost use Rattle.judging.specs.Asked.{Sound, asked, declare_asked, frame_asked, sample_asked, ticks_asked};
ghost use Rattle.judging.specs.Refusals.{number_of};
ghost use Rattle.std.specs.Prelude.{◌≡◌};

use crate::declaring::declared_by;
use device::Model;
use record::Mark;
use sensor::{Sample, Sensor};

// Why a record is not taken, with the document's numbers.
#[derive(Clone, Copy)]
pub enum Refusal {
    UnknownMark = 1,
    Cut = 2,
    LateOrSkipped = 3,
    NoSuchSensor = 4,
    Undeclared = 5,
    BadSample = 6,
    NoTicks = 7,
    TimeOver = 8,
    Full = 9,
    BeyondTable = 10,
    NotReadyAgain = 13,
}

// What a record asks for.
#[derive(Clone, Copy)]
pub enum Asked {
    Declare(Sensor),
    Hold { instance: u8, sample: Sample },
    Frame(u8, u8, u8),
    Ticks(u16),
}

impl Refusal {
    #[tactic(auto, unfolding(crate::specs::Refusals::number_of))]
    pub fn number(self) -> u8
        ensures { result ≡ number_of self }
    {
        self as u8
    }
}

// The record at the front: mark present, mark known, record whole, then its own numbers in rising order. What is left
// and the device come as two: the one goes on with each record, and the other lies where it is. That the answer is sound
// says something of all three, so that none can carry it.
#[tactic(auto, unfolding(crate::specs::Asked::asked, crate::specs::Asked::asked_by))]
pub fn record_asked(rest: &[u8], model: &Model) -> Result<Asked, Refusal>
    ensures { (result ≡ asked rest.now model.now) × Sound rest.now model.now result }
{
    let [first, second, ..] = *rest else {
        return Err(Refusal::Cut);
    };
    let mark = record::mark_of(record::word(first, second)).ok_or(Refusal::UnknownMark)?;
    match mark {
        Mark::Declaration => declare_asked(rest, model),
        Mark::Measurement => sample_asked(rest, model),
        Mark::Bus => frame_asked(rest, model),
        Mark::Time => ticks_asked(rest, model),
    }
}

// A declaration, of which the mark is there.
#[tactic(auto, unfolding(crate::specs::Asked::declare_asked))]
fn declare_asked(rest: &[u8], model: &Model) -> Result<Asked, Refusal>
    ensures { (result ≡ declare_asked rest.now model.now) × Sound rest.now model.now result }
{
    let [first, second, instance, sensor_type, resolution, ..] = *rest else {
        return Err(Refusal::Cut);
    };
    if model.running | (instance != model.declared) {
        return Err(Refusal::LateOrSkipped);
    }
    if 16 <= instance {
        return Err(Refusal::NoSuchSensor);
    }
    let letters = record::word(first, second);
    let sensor = declared_by(letters, sensor_type, resolution).ok_or(Refusal::NoSuchSensor)?;
    Ok(Asked::Declare(sensor))
}

// SA, of which the mark is there.
#[tactic(auto, using(device::proofs::Laws::instance_some, device::proofs::Laws::instance_none, device::proofs::Laws::known_below), unfolding(crate::specs::Asked::sample_asked, device::specs::Device::allowed))]
fn sample_asked(rest: &[u8], model: &Model) -> Result<Asked, Refusal>
    ensures { (result ≡ sample_asked rest.now model.now) × Sound rest.now model.now result }
{
    let [_, _, instance, status, high, middle, low, ..] = *rest else {
        return Err(Refusal::Cut);
    };
    let value = record::triple(high, middle, low);
    let sample = Sample { status, value };
    let x = model.instance(instance).ok_or(Refusal::Undeclared)?;
    if !x.kind.allows(sample) {
        return Err(Refusal::BadSample);
    }
    if x.goes_back(sample) {
        return Err(Refusal::NotReadyAgain);
    }
    Ok(Asked::Hold { instance, sample })
}

// FR, of which the mark is there.
#[tactic(auto, unfolding(crate::specs::Asked::frame_asked))]
fn frame_asked(rest: &[u8], model: &Model) -> Result<Asked, Refusal>
    ensures { (result ≡ frame_asked rest.now) × Sound rest.now model.now result }
{
    let [_, _, first, second, third, ..] = *rest else {
        return Err(Refusal::Cut);
    };
    Ok(Asked::Frame(first, second, third))
}

// TK, of which the mark is there.
#[tactic(auto, unfolding(crate::specs::Asked::ticks_asked))]
fn ticks_asked(rest: &[u8], model: &Model) -> Result<Asked, Refusal>
    ensures { (result ≡ ticks_asked rest.now model.now) × Sound rest.now model.now result }
{
    let [_, _, high, low, ..] = *rest else {
        return Err(Refusal::Cut);
    };
    let n = record::word(high, low);
    if n == 0 {
        return Err(Refusal::NoTicks);
    }
    let last = model
        .tick
        .checked_add(u32::from(n))
        .ok_or(Refusal::TimeOver)?;
    if model.last < last {
        return Err(Refusal::BeyondTable);
    }
    Ok(Asked::Ticks(n))
}
