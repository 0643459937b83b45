// One instance, and its tick.
ghost use Rattle.std.specs.Prelude.{◌≡◌};
ghost use Rattle.sensor.specs.Fresh.{declared, fresh};
ghost use Rattle.sensor.specs.Quiet.{quiet_for, rested, steady};
ghost use Rattle.sensor.specs.Tick.{closed, goes_back, holding, kind_after, sent_after, ticked};

use crate::colour::Colour;
use crate::kind::Kind;
use crate::light::{Basis, Light};
use crate::movement::Movement;
use crate::occupancy::Occupancy;
use crate::sensors::Sensor;
use crate::settings::{Sample, Settings};
use timers::{Decision, Timers};

// The bytes of inputValue that 8D has yet to answer: the lowest `left` of `bytes`.
#[derive(Clone, Copy)]
pub struct Latch {
    pub left: u8,
    pub bytes: u32,
}

// measured: a valid sample was taken for it (M-110). failed: status 2 at the last tick. held: the latest sample. In
// this order it has 80 bytes: the two flags fill what the timers leave of eight.
#[derive(Clone, Copy)]
pub struct Instance {
    pub kind: Kind,
    pub settings: Settings,
    pub timers: Timers,
    pub measured: bool,
    pub failed: bool,
    pub held: Sample,
    pub latch: Latch,
}

// What an instance sends.
#[derive(Clone, Copy)]
pub struct Event {
    pub priority: u8,
    pub information: u16,
}

#[derive(Clone, Copy)]
pub struct Ticked {
    pub instance: Instance,
    pub sent: Option<Event>,
}

impl Instance {
    // As declared: dead time not running, report timer started, nothing measured, nothing latched.
    #[tactic(auto, unfolding(crate::specs::Fresh::fresh))]
    pub fn fresh(kind: Kind, settings: Settings, held: Sample) -> Instance
        ensures { result ≡ fresh kind settings held }
    {
        let report = kind.rules(settings).started_report();
        Instance {
            kind,
            settings,
            timers: Timers { dead: 0, report },
            held,
            measured: false,
            failed: false,
            latch: Latch { left: 0, bytes: 0 },
        }
    }

    // The instance that a declaration of that sensor leaves.
    #[tactic(auto, unfolding(crate::specs::Fresh::declared))]
    pub fn declared(sensor: Sensor) -> Instance
        ensures { result ≡ declared sensor }
    {
        match sensor {
            Sensor::Occupancy => Occupancy::fresh(),
            Sensor::Light { resolution } => Light::fresh(Basis::Measured, resolution),
            Sensor::LightOf2017 { resolution } => Light::fresh(Basis::Padded, resolution),
            Sensor::Movement => Movement::fresh(),
            Sensor::Colour => Colour::fresh(),
        }
    }

    // SA only replaces the held sample; a valid one is remembered to have come.
    #[tactic(auto, unfolding(crate::specs::Tick::holding))]
    pub fn holding(self, sample: Sample) -> Instance
        ensures { result ≡ holding self sample }
    {
        Instance {
            held: sample,
            measured: self.measured | (sample.status == 0),
            ..self
        }
    }

    // The sample would go back to not ready: status 1, though a valid sample was taken before (M-110).
    #[tactic(auto, unfolding(crate::specs::Tick::goes_back))]
    pub fn goes_back(self, sample: Sample) -> bool
        ensures { result ≡ goes_back self sample }
    {
        self.measured & (sample.status == 1)
    }

    // The timers fall, the held sample is taken, and at most one event is sent.
    #[tactic(auto, unfolding(crate::specs::Tick::ticked))]
    pub fn tick(self) -> Ticked
        ensures { result ≡ ticked self }
    {
        let kind = self.kind.taken(self.settings, self.held);
        let rules = kind.rules(self.settings);
        let fell = self.timers.fallen();
        let cause = kind.cause(self.settings);
        let decision = Decision::decided(rules, self.held.status == 0, fell, cause);
        self.closed(kind, fell.after(decision, rules), decision)
    }

    // The end of a tick, as it was decided.
    #[tactic(auto, unfolding(crate::specs::Tick::closed))]
    fn closed(self, kind: Kind, timers: Timers, decision: Decision) -> Ticked
        ensures { result ≡ closed self kind timers decision }
    {
        let instance = Instance {
            kind: kind_after(decision, kind, self.settings),
            timers,
            failed: self.held.status == 2,
            ..self
        };
        let sent = sent_after(decision, kind, self.settings);
        Ticked { instance, sent }
    }

    // For how many ticks from now it sends nothing; 0 where the next tick may do more than let timers fall.
    #[tactic(auto, unfolding(crate::specs::Quiet::quiet_for))]
    pub fn quiet_for(self) -> u32
        ensures { result ≡ quiet_for self }
    {
        if !self.steady() {
            return 0;
        }
        let rules = self.kind.rules(self.settings);
        let cause = self.kind.cause(self.settings);
        let silent = Decision::silent_for(rules, self.held.status == 0, self.timers, cause);
        self.kind.falls_for(self.held).min(silent)
    }

    // After n such ticks.
    #[tactic(auto, unfolding(crate::specs::Quiet::rested))]
    pub fn rested(self, n: u32) -> Instance
        ensures { result ≡ rested self n }
    {
        Instance {
            kind: self.kind.rested(n),
            timers: self.timers.rested(n),
            ..self
        }
    }

    // The held sample has been taken, and `failed` is right.
    #[tactic(auto, unfolding(crate::specs::Quiet::steady))]
    fn steady(self) -> bool
        ensures { result ≡ steady self }
    {
        self.kind.settled(self.settings, self.held) & (self.failed == (self.held.status == 2))
    }
}

#[tactic(auto, unfolding(crate::specs::Tick::kind_after))]
fn kind_after(decision: Decision, kind: Kind, settings: Settings) -> Kind
    ensures { result ≡ kind_after decision kind settings }
{
    match decision {
        Decision::Silent => kind,
        Decision::Triggered | Decision::Reported => kind.sent(settings),
    }
}

// Priority 5 where the due report is the only cause.
#[tactic(auto, unfolding(crate::specs::Tick::sent_after))]
fn sent_after(decision: Decision, kind: Kind, settings: Settings) -> Option<Event>
    ensures { result ≡ sent_after decision kind settings }
{
    match decision {
        Decision::Silent => None,
        Decision::Triggered => Some(Event {
            priority: settings.priority,
            information: kind.information(false),
        }),
        Decision::Reported => Some(Event {
            priority: 5,
            information: kind.information(true),
        }),
    }
}
