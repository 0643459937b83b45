// The colour sensor (type 5; IEC 62386-305; M-104). What the number of a colour says is in crate rgb.
ghost use Rattle.sensor.specs.Colour.{colour_allows, colour_cause, colour_information, colour_input, colour_sent, colour_taken};
ghost use Rattle.sensor.specs.Fresh.{colour_fresh};
ghost use Rattle.sensor.specs.Quiet.{colour_settled};
ghost use Rattle.std.specs.Prelude.{◌≡◌};

use crate::instance::Instance;
use crate::kind::Kind;
use crate::light::{Light, width, without_value};
use crate::settings::{Sample, Settings};
use timers::Units;

// shown: the sample of the last tick. last: the colour whose levels are rLast, gLast and bLast. band: hysteresisBand.
#[derive(Clone, Copy)]
pub struct Colour {
    pub shown: Sample,
    pub last: u32,
    pub band: u64,
}

impl Colour {
    pub const TYPE: u8 = 5;

    pub const RESOLUTION: u8 = 24;

    pub const DEADTIME: u8 = 30;

    pub const REPORT: u8 = 30;

    pub const FILTER: u8 = 1;

    pub const PRIORITY: u8 = 4;

    pub const HYSTERESIS: u8 = 10;

    pub const HYSTERESIS_MIN: u8 = 12;

    pub const UNITS: Units = Units {
        dead: 1,
        report: 100,
    };

    // The filter bits kept: bit 0.
    pub const KEPT: u8 = 1;

    // The opcodes of colour alone (IEC 62386-305, Table 11).
    pub const SET_REPORT: u8 = 0x40;

    pub const SET_HYSTERESIS: u8 = 0x41;

    pub const SET_DEADTIME: u8 = 0x42;

    pub const SET_HYSTERESIS_MIN: u8 = 0x43;

    pub const QUERY_COLOUR_SENSOR: u8 = 0x4B;

    pub const QUERY_HYSTERESIS_MIN: u8 = 0x4C;

    pub const QUERY_DEADTIME: u8 = 0x4D;

    pub const QUERY_REPORT: u8 = 0x4E;

    pub const QUERY_HYSTERESIS: u8 = 0x4F;

    #[tactic(auto, unfolding(crate::specs::Fresh::colour_fresh))]
    pub fn fresh() -> Instance
        ensures { result ≡ colour_fresh }
    {
        let settings = Settings {
            report: Colour::REPORT,
            deadtime: Colour::DEADTIME,
            filter: Colour::FILTER,
            priority: Colour::PRIORITY,
            enabled: true,
            hysteresis: Colour::HYSTERESIS,
            minimum: Colour::HYSTERESIS_MIN,
            ..Settings::NONE
        };
        let colour = Colour {
            shown: Sample::UNREADY,
            last: 0,
            band: 0,
        };
        Instance::fresh(Kind::Colour(colour), settings, Sample::UNREADY)
    }

    // Which samples the type takes. A level of 255 is MASK's, and no value.
    #[tactic(auto, unfolding(crate::specs::Colour::colour_allows))]
    pub fn allows(sample: Sample) -> bool
        ensures { result ≡ colour_allows sample }
    {
        if sample.status == 0 {
            rgb::measurable(sample.value)
        } else {
            without_value(sample)
        }
    }

    // The sample of this tick is taken. Whatever its status, the last colour and the band stay.
    #[tactic(auto, unfolding(crate::specs::Colour::colour_taken))]
    pub fn taken(self, held: Sample) -> Colour
        ensures { result ≡ colour_taken self held }
    {
        Colour {
            shown: held,
            ..self
        }
    }

    // A trigger of its own that the filter lets through: the change is above the band.
    #[tactic(auto, unfolding(crate::specs::Colour::colour_cause))]
    pub fn cause(self, settings: Settings) -> bool
        ensures { result ≡ colour_cause self settings }
    {
        let change = rgb::absolute_change(self.shown.value, self.last) as u64;
        Light::repeat(settings) & (0 < settings.hysteresis) & (self.band < change)
    }

    // As an event leaves it: one that the change is a cause of takes its colour and a new band.
    #[tactic(auto, unfolding(crate::specs::Colour::colour_sent))]
    pub fn sent(self, settings: Settings) -> Colour
        ensures { result ≡ colour_sent self settings }
    {
        if self.cause(settings) {
            let total = rgb::total(self.shown.value);
            Colour {
                last: self.shown.value,
                band: width(total, settings.hysteresis, settings.minimum),
                ..self
            }
        } else {
            self
        }
    }

    // What an event says.
    #[tactic(auto, unfolding(crate::specs::Colour::colour_information))]
    pub fn information(self) -> u16
        ensures { result ≡ colour_information self }
    {
        rgb::information(self.shown.value)
    }

    // inputValue, as queries show it: MASK for status 1 and 2.
    #[tactic(auto, unfolding(crate::specs::Colour::colour_input))]
    pub fn input(self) -> u32
        ensures { result ≡ colour_input self }
    {
        if self.shown.status == 0 {
            self.shown.value
        } else {
            0xFFFFFF
        }
    }

    // Taking the held sample again changes nothing.
    #[tactic(auto, unfolding(crate::specs::Quiet::colour_settled))]
    pub fn settled(self, held: Sample) -> bool
        ensures { result ≡ colour_settled self held }
    {
        self.shown == held
    }
}
