// The small program: a session on standard input, its log on standard output and nothing else there, in buffers of 64 KiB (document 01,
// "The bench model"). At the end one line on standard error says what was read and logged, and which record was refused. With a word behind its name the hour
// table is in use, and what its sheets say of the session goes to descriptor 3 (M-106).
#![tactic(auto)]

mod facts;
mod reading;
mod saying;

use std::env::{Env, FillError};

fn main(rt: HostRuntime) {
    let mut input = [0u8; 65536];
    let mut output = [0u8; 65536];
    let in_use = has_word(&rt);
    let start = if in_use {
        tabled::in_use()
    } else {
        device::fresh()
    };
    let r = reading::run(rt.stdin(), rt.stdout(), start, &mut input, &mut output);
    if in_use {
        facts::write(&r);
    }
    saying::say(rt.stderr(), &r);
}

// A word behind the program's name, whatever it is. `logs` asks so too: below the two programs no crate knows of words.
fn has_word(env: &impl Env) -> bool {
    !matches!(env.arg(1, &mut []), Err(FillError::NotPresent))
}
