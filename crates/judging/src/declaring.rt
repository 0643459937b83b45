// What a declaration declares: decided here, once, from its mark, its type and its resolution.
ghost use Rattle.judging.specs.Declaring.{declared_by, im_declares, in_declares, lo_declares};
ghost use Rattle.std.specs.Prelude.{◌≡◌};

use record::Mark;
use sensor::{Colour, Light, Occupancy, Sensor};

// A sensor, or none that is modelled. Type and resolution are the record's bytes, and no enum: any of them may be
// asked.
#[tactic(auto, unfolding(crate::specs::Declaring::declared_by))]
pub fn declared_by(letters: u16, sensor_type: u8, resolution: u8) -> Option<Sensor>
    ensures { result ≡ declared_by letters sensor_type resolution }
{
    match letters {
        Mark::IN => in_declares(sensor_type, resolution),
        Mark::LO => lo_declares(sensor_type, resolution),
        Mark::IM => im_declares(sensor_type, resolution),
        _ => None,
    }
}

// Type 3 with resolution 2, type 4 with resolution 1 to 24, or type 5 with resolution 24.
#[tactic(auto, unfolding(crate::specs::Declaring::in_declares, crate::specs::Declaring::light_has))]
fn in_declares(sensor_type: u8, resolution: u8) -> Option<Sensor>
    ensures { result ≡ in_declares sensor_type resolution }
{
    match (sensor_type, resolution) {
        (Occupancy::TYPE, Occupancy::RESOLUTION) => Some(Sensor::Occupancy),
        (Light::TYPE, 1..=24) => Some(Sensor::Light { resolution }),
        (Colour::TYPE, Colour::RESOLUTION) => Some(Sensor::Colour),
        _ => None,
    }
}

// Type 4 alone (M-107).
#[tactic(auto, unfolding(crate::specs::Declaring::light_has, crate::specs::Declaring::lo_declares))]
fn lo_declares(sensor_type: u8, resolution: u8) -> Option<Sensor>
    ensures { result ≡ lo_declares sensor_type resolution }
{
    match (sensor_type, resolution) {
        (Light::TYPE, 1..=24) => Some(Sensor::LightOf2017 { resolution }),
        _ => None,
    }
}

// Type 3 alone (M-100).
#[tactic(auto, unfolding(crate::specs::Declaring::im_declares))]
fn im_declares(sensor_type: u8, resolution: u8) -> Option<Sensor>
    ensures { result ≡ im_declares sensor_type resolution }
{
    match (sensor_type, resolution) {
        (Occupancy::TYPE, Occupancy::RESOLUTION) => Some(Sensor::Movement),
        _ => None,
    }
}
