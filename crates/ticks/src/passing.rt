// Ticks at which no instance sends are carried out in one step. What comes of them is what comes of them one by one.
ghost use Rattle.std.specs.Prelude.{map, ◌+◌, ◌<◌, ◌^◌, ◌≡◌};
ghost use Rattle.sensor.specs.Quiet.{rested};
ghost use Rattle.ticks.specs.Quiet.{Steps, in_time, quiet_ticks, rest_model};

use crate::tick::tick;
use device::{Full, Model};
use sensor::Instance;

// A step: how many ticks it was, and the bytes that they logged.
#[derive(Clone, Copy)]
pub struct Passed {
    pub ticks: u16,
    pub written: usize,
}

// Of the next `most` ticks, the quiet ones in one step; or, where the next is none of them, that tick. Without a number
// for each, none. A tick that does not fit was not carried out.
pub fn pass(model: &mut Model, most: u16, tail: &mut [u8]) -> Result<Passed, Full>
    ensures { Steps model.old most model.new result tail.old tail.new }
{
    if !in_time(model, most) {
        return Ok(Passed {
            ticks: 0,
            written: 0,
        });
    }
    let ticks = quiet(model, most);
    if ticks == 0 {
        let written = tick(model, tail)?;
        return Ok(Passed { ticks: 1, written });
    }
    rest(model, ticks);
    Ok(Passed { ticks, written: 0 })
}

// There are ticks left, and numbers for them.
#[tactic(auto, unfolding(crate::specs::Quiet::in_time))]
fn in_time(model: &Model, most: u16) -> bool
    ensures { result ≡ in_time model.now most }
{
    let tick = model.tick;
    0 < most && most as u32 <= u32::MAX - tick
}

// How many of the next `most` ticks are quiet. One instance that may send is enough to know.
fn quiet(model: &Model, most: u16) -> u16
    ensures { result ≡ quiet_ticks model.now most }
{
    let mut ticks = most;
    for x in model.declared() {
        let its = x.quiet_for();
        if its == 0 {
            return 0;
        }
        ticks = its.min(ticks as u32) as u16;
    }
    ticks
}

// The device after n quiet ticks.
fn rest(model: &mut Model, n: u16)
    requires { model.old.tick + n < 2 ^ 32 }
    ensures { model.new ≡ rest_model model.old n }
{
    model.tick += n as u32;
    model.running = true;
    let declared = model.declared().len();
    rest_all(&mut model.instances[..declared], n as u32);
}

fn rest_all(instances: &mut [Instance], n: u32)
    ensures { instances.new ≡ map (λ (x : Instance). rested x n) instances.old }
{
    for x in instances.iter_mut() {
        *x = x.rested(n);
    }
}
