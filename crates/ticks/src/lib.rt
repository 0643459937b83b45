// Ticks of the device: one of every declared instance, in rising number; and those at which no instance sends, in one step.
// A tick is carried out whole or not at all: where its records do not fit in the output's tail, device and output are as before.
#![tactic(auto)]

mod passing;
mod tick;

pub use passing::{Passed, pass};
