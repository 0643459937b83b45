// The types of sensor. All else knows a type by these functions and its opcodes alone: a further type is a variant, a
// file, and an arm in each function but those that name movement alone. There is no trait: an instance holds its type
// by value, so that the matches would stay.
ghost use Rattle.sensor.specs.Kind.{allowing, allows, cancelled, catching, caught, cause, information, input, kept, repeat, resolution, rules, sensor_type, sent, taken, units};
ghost use Rattle.sensor.specs.Quiet.{falls_for, rested_kind, settled};
ghost use Rattle.std.specs.Prelude.{◌≡◌};

use crate::colour::Colour;
use crate::light::Light;
use crate::movement::Movement;
use crate::occupancy::Occupancy;
use crate::settings::{Sample, Settings};
use timers::{Rules, Units};

#[derive(Clone, Copy)]
pub enum Kind {
    Light(Light),
    Occupancy(Occupancy),
    Movement(Movement),
    Colour(Colour),
}

impl Kind {
    // The opcodes that all types have (document 01, "Frames"). Each carries its own beside them.
    pub const SET_PRIORITY: u8 = 0x61;

    pub const ENABLE: u8 = 0x62;

    pub const DISABLE: u8 = 0x63;

    pub const SET_FILTER: u8 = 0x68;

    pub const QUERY_TYPE: u8 = 0x80;

    pub const QUERY_RESOLUTION: u8 = 0x81;

    pub const QUERY_ERROR: u8 = 0x82;

    pub const QUERY_STATUS: u8 = 0x83;

    pub const QUERY_PRIORITY: u8 = 0x84;

    pub const QUERY_ENABLED: u8 = 0x86;

    pub const QUERY_VALUE: u8 = 0x8C;

    pub const QUERY_NEXT: u8 = 0x8D;

    pub const QUERY_FILTER: u8 = 0x90;

    // Ticks that one step of its multipliers stands for.
    #[tactic(auto, unfolding(crate::specs::Kind::units))]
    pub fn units(self) -> Units
        ensures { result ≡ units self }
    {
        match self {
            Kind::Light(_) => Light::UNITS,
            Kind::Occupancy(_) | Kind::Movement(_) => Occupancy::UNITS,
            Kind::Colour(_) => Colour::UNITS,
        }
    }

    // With the sample of this tick taken. Settings and sample come one by one: they are the instance's, and some types ask
    // for one of the two alone.
    #[tactic(auto, unfolding(crate::specs::Kind::taken))]
    pub fn taken(self, settings: Settings, held: Sample) -> Kind
        ensures { result ≡ taken self settings held }
    {
        match self {
            Kind::Light(x) => Kind::Light(x.taken(held)),
            Kind::Occupancy(x) => Kind::Occupancy(x.taken(settings, held)),
            Kind::Movement(x) => Kind::Movement(x.taken(settings, held)),
            Kind::Colour(x) => Kind::Colour(x.taken(held)),
        }
    }

    // A trigger of its own may be sent.
    #[tactic(auto, unfolding(crate::specs::Kind::cause))]
    pub fn cause(self, settings: Settings) -> bool
        ensures { result ≡ cause self settings }
    {
        match self {
            Kind::Light(x) => x.cause(settings),
            Kind::Occupancy(x) => x.cause(),
            Kind::Movement(x) => x.cause(),
            Kind::Colour(x) => x.cause(settings),
        }
    }

    // The filter lets a due report out.
    #[tactic(auto, unfolding(crate::specs::Kind::repeat))]
    pub fn repeat(self, settings: Settings) -> bool
        ensures { result ≡ repeat self settings }
    {
        match self {
            Kind::Light(_) | Kind::Colour(_) => Light::repeat(settings),
            Kind::Occupancy(_) | Kind::Movement(_) => Occupancy::repeat(settings),
        }
    }

    // As an event leaves it.
    #[tactic(auto, unfolding(crate::specs::Kind::sent))]
    pub fn sent(self, settings: Settings) -> Kind
        ensures { result ≡ sent self settings }
    {
        match self {
            Kind::Light(x) => Kind::Light(x.sent(settings)),
            Kind::Occupancy(x) => Kind::Occupancy(x.sent()),
            Kind::Movement(x) => Kind::Movement(x.sent()),
            Kind::Colour(x) => Kind::Colour(x.sent(settings)),
        }
    }

    // What an event says. repeats: the due report is its only cause.
    #[tactic(auto, unfolding(crate::specs::Kind::information))]
    pub fn information(self, repeats: bool) -> u16
        ensures { result ≡ information self repeats }
    {
        match self {
            Kind::Light(x) => x.information(),
            Kind::Occupancy(x) => x.information(repeats),
            Kind::Movement(x) => x.information(repeats),
            Kind::Colour(x) => x.information(),
        }
    }

    // What the decision goes by.
    #[tactic(auto, unfolding(crate::specs::Kind::rules))]
    pub fn rules(self, settings: Settings) -> Rules
        ensures { result ≡ rules self settings }
    {
        Rules {
            enabled: settings.enabled,
            repeat: self.repeat(settings),
            deadtime: settings.deadtime,
            report: settings.report,
            units: self.units(),
        }
    }

    // The type, as a number.
    #[tactic(auto, unfolding(crate::specs::Kind::sensor_type))]
    pub fn sensor_type(self) -> u8
        ensures { result ≡ sensor_type self }
    {
        match self {
            Kind::Light(_) => Light::TYPE,
            Kind::Occupancy(_) | Kind::Movement(_) => Occupancy::TYPE,
            Kind::Colour(_) => Colour::TYPE,
        }
    }

    #[tactic(auto, unfolding(crate::specs::Kind::resolution))]
    pub fn resolution(self) -> u8
        ensures { result ≡ resolution self }
    {
        match self {
            Kind::Light(x) => x.resolution,
            Kind::Occupancy(_) | Kind::Movement(_) => Occupancy::RESOLUTION,
            Kind::Colour(_) => Colour::RESOLUTION,
        }
    }

    // The filter bits that the type keeps.
    #[tactic(auto, unfolding(crate::specs::Kind::kept))]
    pub fn kept(self) -> u8
        ensures { result ≡ kept self }
    {
        match self {
            Kind::Light(_) => Light::KEPT,
            Kind::Occupancy(_) | Kind::Movement(_) => Occupancy::KEPT,
            Kind::Colour(_) => Colour::KEPT,
        }
    }

    // inputValue, as queries show it.
    #[tactic(auto, unfolding(crate::specs::Kind::input))]
    pub fn input(self) -> u32
        ensures { result ≡ input self }
    {
        match self {
            Kind::Light(x) => x.input(),
            Kind::Occupancy(x) => x.input(),
            Kind::Movement(x) => x.input(),
            Kind::Colour(x) => x.input(),
        }
    }

    // Which samples the type takes.
    #[tactic(auto, unfolding(crate::specs::Kind::allows))]
    pub fn allows(self, sample: Sample) -> bool
        ensures { result ≡ allows self sample }
    {
        match self {
            Kind::Light(x) => x.allows(sample),
            Kind::Occupancy(_) => Occupancy::allows(sample),
            Kind::Movement(_) => Movement::allows(sample),
            Kind::Colour(_) => Colour::allows(sample),
        }
    }

    // Of the triggers that wait, only those go on waiting that `allowed` has.
    #[tactic(auto, unfolding(crate::specs::Kind::allowing))]
    pub fn allowing(self, allowed: u8) -> Kind
        ensures { result ≡ allowing self allowed }
    {
        match self {
            Kind::Occupancy(x) => Kind::Occupancy(x.allowing(allowed)),
            Kind::Movement(x) => Kind::Movement(x.allowing(allowed)),
            Kind::Light(_) | Kind::Colour(_) => self,
        }
    }

    // Catch movement; the other types have no such command.
    #[tactic(auto, unfolding(crate::specs::Kind::caught))]
    pub fn caught(self, settings: Settings) -> Kind
        ensures { result ≡ caught self settings }
    {
        match self {
            Kind::Movement(x) => Kind::Movement(x.caught(settings)),
            _ => self,
        }
    }

    // Cancel hold; the other types have no such command.
    #[tactic(auto, unfolding(crate::specs::Kind::cancelled))]
    pub fn cancelled(self) -> Kind
        ensures { result ≡ cancelled self }
    {
        match self {
            Kind::Movement(x) => Kind::Movement(x.cancelled()),
            _ => self,
        }
    }

    // It catches movement.
    #[tactic(auto, unfolding(crate::specs::Kind::catching))]
    pub fn catching(self) -> bool
        ensures { result ≡ catching self }
    {
        match self {
            Kind::Movement(x) => x.catching,
            _ => false,
        }
    }

    // Taking the held sample again does no more than let its own timer fall.
    #[tactic(auto, unfolding(crate::specs::Quiet::settled))]
    pub fn settled(self, settings: Settings, held: Sample) -> bool
        ensures { result ≡ settled self settings held }
    {
        match self {
            Kind::Light(x) => x.settled(held),
            Kind::Occupancy(x) => x.settled(settings, held),
            Kind::Movement(x) => x.settled(settings, held),
            Kind::Colour(x) => x.settled(held),
        }
    }

    // For how many ticks its own timer only falls. A type without one says forever: more ticks than a session can
    // count.
    #[tactic(auto, unfolding(crate::specs::Quiet::falls_for))]
    pub fn falls_for(self, held: Sample) -> u32
        ensures { result ≡ falls_for self held }
    {
        match self {
            Kind::Movement(x) => x.falls_for(held),
            _ => u32::MAX,
        }
    }

    // After n such ticks.
    #[tactic(auto, unfolding(crate::specs::Quiet::rested_kind))]
    pub fn rested(self, n: u32) -> Kind
        ensures { result ≡ rested_kind self n }
    {
        match self {
            Kind::Movement(x) => Kind::Movement(x.rested(n)),
            _ => self,
        }
    }
}
