// The device: up to sixteen instances, the DTR0 that all share, and the tick number. What a declaration and a frame do
// to it, and what a frame logs. What logs is taken whole or not at all: where its records do not fit in the output's
// tail, device and output are as before.
#![tactic(auto)]

mod frames;
mod judged;
mod model;
mod pairs;

pub use model::{Full, Model, fresh};
pub use pairs::{First, Frame, repeats};
