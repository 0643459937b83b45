// Sessions: any bytes in, a log out, up to the first refused record (document 01, "Session and log records"); and the call for C.
#![tactic(auto)]

mod reading;

pub use reading::{Outcome, Reading, potmeander_session, read, read_for_c};
