// The device, and who is declared.
ghost use Rattle.device.specs.Device.{declared_instances, declared_model, fresh, instance_of};
ghost use Rattle.std.specs.Prelude.{length, option_copied, ◌≡◌, ◌≤◌};

use crate::pairs::First;
use sensor::{Instance, Sensor};

// running: a record that is no declaration was taken, and declarations are over. declared: how many instances are, from
// the first of the sixteen places on; a count and no list that grows, since there is no heap. last: the last tick that
// may be reached (M-106). remembered: the first frame of a pair (M-105).
#[derive(Clone, Copy)]
pub struct Model {
    pub tick: u32,
    pub last: u32,
    pub dtr0: u8,
    pub declared: u8,
    pub running: bool,
    pub remembered: Option<First>,
    pub instances: [Instance; 16],
}

// The records of a change do not fit in the output's tail: device and output are as before.
#[derive(Clone, Copy)]
pub struct Full;

// The model at the start of a session.
#[tactic(auto, unfolding(crate::specs::Device::fresh))]
pub fn fresh() -> Model
    ensures { result ≡ fresh }
{
    let nobody = Instance::declared(Sensor::Light { resolution: 1 });
    Model {
        tick: 0,
        last: u32::MAX,
        dtr0: 0,
        declared: 0,
        running: false,
        remembered: None,
        instances: [nobody; 16],
    }
}

impl Model {
    // The declared instances, by their numbers.
    #[tactic(auto, using(std::proofs::lemmas::List::take_min), unfolding(crate::specs::Device::declared_instances))]
    pub fn declared(&self) -> &[Instance]
        ensures value { result.now ≡ declared_instances self.now }
        ensures few { length result.now ≤ 16 }
    {
        &self.instances[..(self.declared as usize).min(self.instances.len())]
    }

    // The instance of that number, if it is declared.
    pub fn instance(&self, number: u8) -> Option<&Instance>
        ensures { option_copied result ≡ instance_of self.now number }
    {
        self.declared().get(number as usize)
    }

    // A declaration: the next instance is that sensor. There is no seventeenth.
    #[tactic(auto, unfolding(crate::specs::Device::declared_model))]
    pub fn declare(&mut self, sensor: Sensor)
        ensures { self.new ≡ declared_model self.old sensor }
    {
        if self.declared < 16 {
            self.instances[self.declared as usize] = Instance::declared(sensor);
            self.declared += 1;
        }
    }
}
