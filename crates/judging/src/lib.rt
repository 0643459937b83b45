// What a session's record asks for, or by which number it is refused (document 01, "Numbers given when a record is not taken").
#![tactic(auto)]

mod asked;
mod declaring;

pub use asked::{Asked, Refusal, record_asked};
