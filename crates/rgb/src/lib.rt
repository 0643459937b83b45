// What the number of a colour says (M-104; IEC 62386-305): its three levels, how far two colours are apart, what an
// event tells of one. And the sensor that is modelled, which is the example of the standard's annex. Every function
// takes any numbers.
#![tactic(auto)]

mod annex;

ghost use Rattle.std.specs.Prelude.{◌<◌, ◌&&◌, ◌≡◌};
ghost use Rattle.rgb.specs.Colour.{absolute_change, apart, b_value, g_value, information, level, r_value, total};

pub use annex::{PARAMETERS, parameter};

// Each of the three is a level that a sensor measures: 0 to 254.
pub fn measurable(value: u32) -> bool
    ensures { result ≡ (level (r_value value) && level (g_value value)) && level (b_value value) }
{
    let [red, green, blue, _] = value.to_le_bytes();
    (red < 255) & (green < 255) & (blue < 255)
}

// absoluteChange: what the three differ from the last ones, added up.
#[tactic(auto, unfolding(crate::specs::Colour::absolute_change, crate::specs::Colour::apart))]
pub fn absolute_change(value: u32, last: u32) -> u32
    ensures { result ≡ absolute_change value last }
{
    let [red, green, blue, _] = value.to_le_bytes();
    let [last_red, last_green, last_blue, _] = last.to_le_bytes();
    (red.abs_diff(last_red) as u32)
        + (green.abs_diff(last_green) as u32)
        + (blue.abs_diff(last_blue) as u32)
}

// The three added up.
#[tactic(auto, unfolding(crate::specs::Colour::total))]
pub fn total(value: u32) -> u32
    ensures { result ≡ total value }
{
    let [red, green, blue, _] = value.to_le_bytes();
    (red as u32) + (green as u32) + (blue as u32)
}

// What an event says: the top three bits of each, red lowest.
#[tactic(auto, unfolding(crate::specs::Colour::information))]
pub fn information(value: u32) -> u16
    ensures { result ≡ information value }
{
    let [red, green, blue, _] = value.to_le_bytes();
    ((red / 32) as u16) + ((green / 32) as u16) * 8 + ((blue / 32) as u16) * 64
}
