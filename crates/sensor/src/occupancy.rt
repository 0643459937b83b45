// The presence-based occupancy sensor (type 3; IEC 62386-303). A change in dead time waits: it is not forgotten.
ghost use Rattle.sensor.specs.Fresh.{occupancy_fresh};
ghost use Rattle.sensor.specs.Occupancy.{change, occupancy_allowing, occupancy_allows, occupancy_cause, occupancy_information, occupancy_input, occupancy_repeat, occupancy_sent, occupancy_settings, occupancy_taken, triggers, waits};
ghost use Rattle.sensor.specs.Quiet.{occupancy_settled};
ghost use Rattle.std.specs.Prelude.{cond, eqb, ltb, ◌&&◌, ◌≡◌};

use crate::instance::Instance;
use crate::kind::Kind;
use crate::settings::{Sample, Settings};
use timers::Units;

// value: of the last tick with status 0; bit 0 movement, bit 1 occupied. waiting: the triggers that wait to be sent.
#[derive(Clone, Copy)]
pub struct Occupancy {
    pub value: u8,
    pub waiting: u8,
}

impl Occupancy {
    // Vacant, and nothing waits.
    pub const START: Occupancy = Occupancy {
        value: 0,
        waiting: 0,
    };

    pub const TYPE: u8 = 3;

    pub const RESOLUTION: u8 = 2;

    pub const DEADTIME: u8 = 2;

    pub const REPORT: u8 = 20;

    pub const FILTER: u8 = 3;

    pub const PRIORITY: u8 = 4;

    pub const UNITS: Units = Units {
        dead: 1,
        report: 20,
    };

    // The filter bits kept: bits 0 to 4.
    pub const KEPT: u8 = 31;

    // The opcodes of occupancy alone (document 01, "Frames").
    pub const SET_REPORT: u8 = 0x22;

    pub const SET_DEADTIME: u8 = 0x23;

    pub const QUERY_DEADTIME: u8 = 0x2C;

    pub const QUERY_REPORT: u8 = 0x2E;

    // The settings of either occupancy sensor at the start, but for hold.
    pub fn defaults() -> Settings
        ensures { result ≡ occupancy_settings }
    {
        Settings {
            report: Occupancy::REPORT,
            deadtime: Occupancy::DEADTIME,
            filter: Occupancy::FILTER,
            priority: Occupancy::PRIORITY,
            enabled: true,
            ..Settings::NONE
        }
    }

    #[tactic(auto, unfolding(crate::specs::Fresh::occupancy_fresh))]
    pub fn fresh() -> Instance
        ensures { result ≡ occupancy_fresh }
    {
        let kind = Kind::Occupancy(Occupancy::START);
        Instance::fresh(kind, Occupancy::defaults(), Sample::STILL)
    }

    // Which samples the type takes.
    #[tactic(auto, unfolding(crate::specs::Occupancy::occupancy_allows))]
    pub fn allows(sample: Sample) -> bool
        ensures { result ≡ occupancy_allows sample }
    {
        allows_below(sample, 4)
    }

    // The sample of this tick is taken. A failure clears all that wait.
    #[tactic(auto, unfolding(crate::specs::Occupancy::occupancy_taken, crate::specs::Occupancy::occupancy_sent))]
    pub fn taken(self, settings: Settings, held: Sample) -> Occupancy
        ensures { result ≡ occupancy_taken self settings held }
    {
        if held.status == 0 {
            let value = (held.value % 4) as u8;
            Occupancy {
                value,
                waiting: waits(settings, self.waiting, triggers(self.value, value)),
            }
        } else {
            self.sent()
        }
    }

    #[tactic(auto, unfolding(crate::specs::Occupancy::occupancy_cause))]
    pub fn cause(self) -> bool
        ensures { result ≡ occupancy_cause self }
    {
        0 < self.waiting
    }

    // Filter bit 2 lets the due report out.
    #[tactic(auto, unfolding(crate::specs::Occupancy::occupancy_repeat))]
    pub fn repeat(settings: Settings) -> bool
        ensures { result ≡ occupancy_repeat settings }
    {
        settings.filter / 4 % 2 == 1
    }

    // An event clears all that wait.
    #[tactic(auto, unfolding(crate::specs::Occupancy::occupancy_sent))]
    pub fn sent(self) -> Occupancy
        ensures { result ≡ occupancy_sent self }
    {
        Occupancy { waiting: 0, ..self }
    }

    // What an event says. repeats: the due report is its only cause.
    #[tactic(auto, unfolding(crate::specs::Occupancy::occupancy_information))]
    pub fn information(self, repeats: bool) -> u16
        ensures { result ≡ occupancy_information self repeats }
    {
        let value = self.value as u16;
        if repeats { value + 4 } else { value }
    }

    // inputValue, as queries show it; the last value is kept in a failure.
    #[tactic(auto, unfolding(crate::specs::Occupancy::occupancy_input))]
    pub fn input(self) -> u32
        ensures { result ≡ occupancy_input self }
    {
        widen::input_value(self.value as u32, Occupancy::RESOLUTION)
    }

    // Of the triggers that wait, only those go on waiting that `allowed` has.
    #[tactic(auto, unfolding(crate::specs::Occupancy::occupancy_allowing))]
    pub fn allowing(self, allowed: u8) -> Occupancy
        ensures { result ≡ occupancy_allowing self allowed }
    {
        Occupancy {
            waiting: self.waiting & allowed,
            ..self
        }
    }

    // Taking the held sample again changes nothing.
    #[tactic(auto, unfolding(crate::specs::Quiet::occupancy_settled))]
    pub fn settled(self, settings: Settings, held: Sample) -> bool
        ensures { result ≡ occupancy_settled self settings held }
    {
        let none = self.waiting == 0;
        if held.status == 0 {
            let value = (held.value % 4) as u8;
            (self.value == value) & (settings.enabled | none)
        } else {
            none
        }
    }
}

// Samples of an occupancy sensor whose values lie below `end`.
pub fn allows_below(sample: Sample, end: u32) -> bool
    ensures { result ≡ cond (eqb sample.status 0) (ltb sample.value end) (eqb sample.status 2 && eqb sample.value 0) }
{
    if sample.status == 0 {
        sample.value < end
    } else {
        sample == Sample::FAILED
    }
}

// The trigger of one bit: up where it rose, down where it fell.
#[tactic(auto, unfolding(crate::specs::Occupancy::change))]
fn change(old: u8, new: u8, up: u8, down: u8) -> u8
    ensures { result ≡ change old new up down }
{
    if old < new {
        up
    } else if new < old {
        down
    } else {
        0
    }
}

#[tactic(auto, unfolding(crate::specs::Occupancy::triggers))]
fn triggers(old: u8, new: u8) -> u8
    ensures { result ≡ triggers old new }
{
    change(old / 2 % 2, new / 2 % 2, 1, 2) | change(old % 2, new % 2, 8, 16)
}

// What waits once the triggers of a tick came: a trigger whose filter bit is 0, or that falls in a disabled time, is
// dropped.
#[tactic(auto, unfolding(crate::specs::Occupancy::waits))]
fn waits(settings: Settings, waiting: u8, came: u8) -> u8
    ensures { result ≡ waits settings waiting came }
{
    let kept = waiting | (came & settings.filter);
    if settings.enabled { kept } else { 0 }
}
