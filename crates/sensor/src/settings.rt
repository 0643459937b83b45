// What every type of sensor is set to and what it is given.

// The settings block of an instance; 0 where its type has no such setting.
#[derive(Clone, Copy)]
pub struct Settings {
    pub report: u8,
    pub deadtime: u8,
    pub filter: u8,
    pub priority: u8,
    pub enabled: bool,
    pub hysteresis: u8,
    pub minimum: u8,
    pub hold: u8,
}

impl Settings {
    // The block of a type that has no setting.
    pub const NONE: Settings = Settings {
        report: 0,
        deadtime: 0,
        filter: 0,
        priority: 0,
        enabled: false,
        hysteresis: 0,
        minimum: 0,
        hold: 0,
    };
}

// What the sensor measured. Status 0 is valid, 1 not ready, 2 physical failure.
// A status stays a number: a sample may be given with any, and whether a type takes it is asked of the number.
#[derive(Clone, Copy, PartialEq, Eq)]
pub struct Sample {
    pub status: u8,
    pub value: u32,
}

impl Sample {
    pub const STILL: Sample = Sample {
        status: 0,
        value: 0,
    };

    pub const UNREADY: Sample = Sample {
        status: 1,
        value: 0,
    };

    pub const FAILED: Sample = Sample {
        status: 2,
        value: 0,
    };
}
