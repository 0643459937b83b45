// The sensor that is modelled: what a colour query tells of it (IEC 62386-305, 11.9.2 and Annex A).
ghost use Rattle.rgb.specs.Annex.{parameter, wavelength};
ghost use Rattle.std.specs.Prelude.{◌≡◌};

// One of its three elements: the wavelengths in nm, and what a full scale reading takes, in uW/cm2.
#[derive(Clone, Copy)]
struct Channel {
    upper: u16,
    peak: u16,
    lower: u16,
    irradiance: u16,
}

impl Channel {
    const RED: Channel = Channel {
        upper: 675,
        peak: 650,
        lower: 625,
        irradiance: 340,
    };

    const GREEN: Channel = Channel {
        upper: 575,
        peak: 550,
        lower: 500,
        irradiance: 360,
    };

    const BLUE: Channel = Channel {
        upper: 525,
        peak: 475,
        lower: 450,
        irradiance: 200,
    };
}

// How many parameters a query can ask for.
pub const PARAMETERS: u8 = 15;

// The answer for each DTR0; 0 where there is no such parameter.
#[tactic(auto, unfolding(crate::specs::Annex::parameter))]
pub fn parameter(dtr0: u8) -> u8
    ensures { result ≡ parameter dtr0 }
{
    let red = Channel::RED;
    let green = Channel::GREEN;
    let blue = Channel::BLUE;
    // Stays a match: a list of the fifteen, with its test, is no shorter, and its proof did not close.
    match dtr0 {
        0 => wavelength(red.upper),
        1 => wavelength(red.peak),
        2 => wavelength(red.lower),
        3 => wavelength(green.upper),
        4 => wavelength(green.peak),
        5 => wavelength(green.lower),
        6 => wavelength(blue.upper),
        7 => wavelength(blue.peak),
        8 => wavelength(blue.lower),
        9 => red.irradiance.to_be_bytes()[0],
        10 => red.irradiance.to_be_bytes()[1],
        11 => green.irradiance.to_be_bytes()[0],
        12 => green.irradiance.to_be_bytes()[1],
        13 => blue.irradiance.to_be_bytes()[0],
        14 => blue.irradiance.to_be_bytes()[1],
        _ => 0,
    }
}

// Steps of 2 nm above 300, from 0 to 255.
#[tactic(auto, unfolding(crate::specs::Annex::wavelength))]
fn wavelength(nm: u16) -> u8
    ensures { result ≡ wavelength nm }
{
    (nm.saturating_sub(300) / 2).min(255) as u8
}
