// What a declaration declares: one of the sensors that are modelled. A further one is a case here, and an arm in
// `Instance::declared`.
#[derive(Clone, Copy)]
pub enum Sensor {
    Occupancy,
    Light { resolution: u8 },
    // Built to the text of 2017 (M-107).
    LightOf2017 { resolution: u8 },
    // Movement-based occupancy (M-100).
    Movement,
    // Colour (M-104).
    Colour,
}
