// The light sensor (type 4; IEC 62386-304). Band, width and comparison are on one number, `compared`, and on no other.
ghost use Rattle.std.specs.Prelude.{◌-◌, ◌&&◌, ◌<◌, ◌^◌, eqb, leb, ltb, ◌≡◌};
ghost use Rattle.sensor.specs.Fresh.{light_fresh};
ghost use Rattle.sensor.specs.Light.{compared, light_allows, light_cause, light_information, light_input, light_repeat, light_sent, light_taken, minimum, moved, outside, width};
ghost use Rattle.sensor.specs.Quiet.{light_settled};

use crate::instance::Instance;
use crate::kind::Kind;
use crate::settings::{Sample, Settings};
use timers::Units;

// What is compared: the measured value, as the amendment of 2024 has it, or inputValue of it, as the text of 2017 had
// it (M-107).
#[derive(Clone, Copy)]
pub enum Basis {
    Measured,
    Padded,
}

// Where the number compared may lie without a trigger.
#[derive(Clone, Copy)]
pub struct Band {
    pub low: u64,
    pub high: u64,
}

// shown: the sample of the last tick. band: where there is none, every number is a trigger.
#[derive(Clone, Copy)]
pub struct Light {
    pub basis: Basis,
    pub resolution: u8,
    pub shown: Sample,
    pub band: Option<Band>,
}

impl Light {
    pub const TYPE: u8 = 4;

    pub const DEADTIME: u8 = 30;

    pub const REPORT: u8 = 30;

    pub const FILTER: u8 = 1;

    pub const PRIORITY: u8 = 4;

    pub const HYSTERESIS: u8 = 5;

    pub const UNITS: Units = Units {
        dead: 1,
        report: 20,
    };

    // The filter bits kept: bit 0.
    pub const KEPT: u8 = 1;

    // The opcodes of light alone (document 01, "Frames").
    pub const SET_REPORT: u8 = 0x30;

    pub const SET_HYSTERESIS: u8 = 0x31;

    pub const SET_DEADTIME: u8 = 0x32;

    pub const SET_HYSTERESIS_MIN: u8 = 0x33;

    pub const QUERY_HYSTERESIS_MIN: u8 = 0x3C;

    pub const QUERY_DEADTIME: u8 = 0x3D;

    pub const QUERY_REPORT: u8 = 0x3E;

    pub const QUERY_HYSTERESIS: u8 = 0x3F;

    #[tactic(auto, unfolding(crate::specs::Fresh::light_fresh))]
    pub fn fresh(basis: Basis, resolution: u8) -> Instance
        ensures { result ≡ light_fresh basis resolution }
    {
        let settings = Settings {
            report: Light::REPORT,
            deadtime: Light::DEADTIME,
            filter: Light::FILTER,
            priority: Light::PRIORITY,
            enabled: true,
            hysteresis: Light::HYSTERESIS,
            minimum: minimum(resolution),
            ..Settings::NONE
        };
        let light = Light {
            basis,
            resolution,
            shown: Sample::UNREADY,
            band: None,
        };
        Instance::fresh(Kind::Light(light), settings, Sample::UNREADY)
    }

    // Which samples the type takes. All ones is MASK, and no value.
    #[tactic(auto, unfolding(crate::specs::Light::light_allows))]
    pub fn allows(self, sample: Sample) -> bool
        ensures { result ≡ light_allows self sample }
    {
        if sample.status == 0 {
            below_mask(sample.value, self.resolution)
        } else {
            without_value(sample)
        }
    }

    // The sample of this tick is taken; status 1 or 2 discards the band.
    #[tactic(auto, unfolding(crate::specs::Light::light_taken))]
    pub fn taken(self, held: Sample) -> Light
        ensures { result ≡ light_taken self held }
    {
        Light {
            shown: held,
            band: if held.status == 0 { self.band } else { None },
            ..self
        }
    }

    // The number that band, width and comparison are taken on.
    pub fn compared(self) -> u32
        ensures { result ≡ compared self }
    {
        match self.basis {
            Basis::Measured => self.shown.value,
            Basis::Padded => widen::input_value(self.shown.value, self.resolution),
        }
    }

    // A trigger of its own that the filter lets through.
    #[tactic(auto, unfolding(crate::specs::Light::light_cause))]
    pub fn cause(self, settings: Settings) -> bool
        ensures { result ≡ light_cause self settings }
    {
        Light::repeat(settings)
            & (0 < settings.hysteresis)
            & Band::outside(self.band, self.compared())
    }

    // Filter bit 0 lets every light event out, the due report too.
    #[tactic(auto, unfolding(crate::specs::Light::light_repeat))]
    pub fn repeat(settings: Settings) -> bool
        ensures { result ≡ light_repeat settings }
    {
        settings.filter % 2 == 1
    }

    // As an event leaves it.
    #[tactic(auto, unfolding(crate::specs::Light::light_sent))]
    pub fn sent(self, settings: Settings) -> Light
        ensures { result ≡ light_sent self settings }
    {
        Light {
            band: Some(Band::moved(self.band, self.compared(), settings)),
            ..self
        }
    }

    // What an event says.
    #[tactic(auto, unfolding(crate::specs::Light::light_information))]
    pub fn information(self) -> u16
        ensures { result ≡ light_information self }
    {
        widen::information(self.shown.value, self.resolution)
    }

    // inputValue, as queries show it: MASK for status 1 and 2.
    #[tactic(auto, unfolding(crate::specs::Light::light_input))]
    pub fn input(self) -> u32
        ensures { result ≡ light_input self }
    {
        if self.shown.status == 0 {
            widen::input_value(self.shown.value, self.resolution)
        } else {
            widen::mask(self.resolution)
        }
    }

    // Taking the held sample again changes nothing.
    #[tactic(auto, unfolding(crate::specs::Quiet::light_settled))]
    pub fn settled(self, held: Sample) -> bool
        ensures { result ≡ light_settled self held }
    {
        (self.shown == held) & ((held.status == 0) | self.band.is_none())
    }
}

impl Band {
    // Above high, below low, or no band.
    #[tactic(auto, unfolding(crate::specs::Light::outside))]
    pub fn outside(band: Option<Band>, v: u32) -> bool
        ensures { result ≡ outside band v }
    {
        let at = v as u64;
        match band {
            None => true,
            Some(Band { low, high }) => (high < at) | (at < low),
        }
    }

    // As an event at v leaves it: it ends at v from above or, from below, begins there. Inside the band it stays.
    #[tactic(auto, unfolding(crate::specs::Light::moved))]
    pub fn moved(band: Option<Band>, v: u32, settings: Settings) -> Band
        ensures { result ≡ moved band v (width v settings.hysteresis settings.minimum) }
    {
        let at = v as u64;
        let wide = width(v, settings.hysteresis, settings.minimum);
        match band {
            Some(stays) if stays.low <= at && at <= stays.high => stays,
            Some(Band { high, .. }) if at <= high => Band {
                low: at,
                high: at + wide,
            },
            _ => Band {
                low: at.saturating_sub(wide),
                high: at,
            },
        }
    }
}

// The larger of hysteresisMin and v x hysteresis / 100.
#[tactic(auto, unfolding(crate::specs::Light::width))]
pub fn width(v: u32, hysteresis: u8, least: u8) -> u64
    ensures is { result ≡ width v hysteresis least }
    ensures small { result < 2 ^ 40 }
{
    (v as u64 * hysteresis as u64 / 100).max(least as u64)
}

// hysteresisMin at start.
#[tactic(auto, unfolding(crate::specs::Light::minimum))]
fn minimum(resolution: u8) -> u8
    ensures { result ≡ minimum resolution }
{
    // From 15 bits on it is 255.
    ((1u32 << resolution.min(15)) / 100).min(255) as u8
}

// A sample that is not valid says no value: not ready, or a failure.
pub fn without_value(sample: Sample) -> bool
    ensures { result ≡ leb sample.status 2 && eqb sample.value 0 }
{
    (sample.status <= 2) & (sample.value == 0)
}

// At most 2^resolution - 2.
fn below_mask(value: u32, resolution: u8) -> bool
    ensures { result ≡ ltb value (2 ^ resolution - 1) }
{
    // From 33 bits on no value is above it.
    (value as u64) < (1u64 << resolution.min(33)) - 1
}
