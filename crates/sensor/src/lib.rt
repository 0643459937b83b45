// One sensor instance by value: what it holds, what it measures, and one tick of it (document 01, "One tick").
// Every function takes every value of every field: nothing is assumed of a resolution, a status or a filter.
#![tactic(auto)]

mod colour;
mod instance;
mod kind;
mod light;
mod movement;
mod occupancy;
mod sensors;
mod settings;

pub use colour::Colour;
pub use instance::{Event, Instance, Latch, Ticked};
pub use kind::Kind;
pub use light::{Band, Basis, Light};
pub use movement::Movement;
pub use occupancy::Occupancy;
pub use sensors::Sensor;
pub use settings::{Sample, Settings};
