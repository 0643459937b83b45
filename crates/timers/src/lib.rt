// Two timers and one decision, the same for every kind of sensor (document 01, "Frames" and "One tick").
// Nothing here knows what a sensor measures: a kind says whether it has a cause of its own, and the rest is decided
// here.
#![tactic(auto)]

ghost use Rattle.std.specs.Prelude.{◌≡◌};
ghost use Rattle.timers.specs.Decision.{after, decided};
ghost use Rattle.timers.specs.Quiet.{held_for, rested, silent_for};
ghost use Rattle.timers.specs.Timers.{dead_time, fallen, report_time, started, started_report};

// dead: dead time, which at 0 is not running. report: the report timer where it runs, which at 0 is due, and stays due.
#[derive(Clone, Copy)]
pub struct Timers {
    pub dead: u16,
    pub report: Option<u16>,
}

// Ticks that one step of each multiplier stands for.
#[derive(Clone, Copy)]
pub struct Units {
    pub dead: u8,
    pub report: u8,
}

// What the decision goes by: the multipliers that are set, and whether the filter lets a due report out.
#[derive(Clone, Copy)]
pub struct Rules {
    pub enabled: bool,
    pub repeat: bool,
    pub deadtime: u8,
    pub report: u8,
    pub units: Units,
}

// What is decided of a tick: no event; one with a cause of the sensor's own; one whose only cause is the due report.
#[derive(Clone, Copy)]
pub enum Decision {
    Silent,
    Triggered,
    Reported,
}

impl Rules {
    // D of demand 3, in ticks.
    #[tactic(auto, unfolding(crate::specs::Timers::dead_time))]
    pub fn dead_time(self) -> u16
        ensures { result ≡ dead_time self }
    {
        self.deadtime as u16 * self.units.dead as u16
    }

    // R of demand 3: the report time, never below dead time.
    #[tactic(auto, unfolding(crate::specs::Timers::report_time))]
    pub fn report_time(self) -> u16
        ensures { result ≡ report_time self }
    {
        self.dead_time()
            .max(self.report as u16 * self.units.report as u16)
    }

    // The report timer as an event starts it. Multiplier 0 is no report: it stands.
    #[tactic(auto, unfolding(crate::specs::Timers::started_report))]
    pub fn started_report(self) -> Option<u16>
        ensures { result ≡ started_report self }
    {
        if self.report == 0 {
            None
        } else {
            Some(self.report_time())
        }
    }
}

impl Timers {
    // Every running timer falls by 1.
    #[tactic(auto, unfolding(crate::specs::Timers::fallen, crate::specs::Timers::fallen_report, crate::specs::Quiet::rested, crate::specs::Quiet::rested_report))]
    pub fn fallen(self) -> Timers
        ensures { result ≡ fallen self }
    {
        self.rested(1)
    }

    // As an event starts them.
    #[tactic(auto, unfolding(crate::specs::Timers::started))]
    pub fn started(rules: Rules) -> Timers
        ensures { result ≡ started rules }
    {
        Timers {
            dead: rules.dead_time(),
            report: rules.started_report(),
        }
    }

    // At the end of a tick: started if an event goes out, else as they fell.
    #[tactic(auto, unfolding(crate::specs::Decision::after))]
    pub fn after(self, decision: Decision, rules: Rules) -> Timers
        ensures { result ≡ after decision rules self }
    {
        match decision {
            Decision::Silent => self,
            Decision::Triggered | Decision::Reported => Timers::started(rules),
        }
    }

    // After n ticks with no event.
    #[tactic(auto, unfolding(crate::specs::Quiet::rested, crate::specs::Quiet::rested_report))]
    pub fn rested(self, n: u32) -> Timers
        ensures { result ≡ rested self n }
    {
        let rested = |left: u16| (left as u32).saturating_sub(n) as u16;
        Timers {
            dead: rested(self.dead),
            report: self.report.map(rested),
        }
    }

    // For how many ticks they hold a report back. u32::MAX is more ticks than a session can count.
    #[tactic(auto, unfolding(crate::specs::Quiet::held_for))]
    fn held_for(self) -> u32
        ensures { result ≡ held_for self.report self.dead }
    {
        match self.report {
            Some(left) => left.max(self.dead).saturating_sub(1) as u32,
            None => u32::MAX,
        }
    }
}

impl Decision {
    // The decision of a tick, on timers that have fallen.
    #[tactic(auto, unfolding(crate::specs::Decision::decided, crate::specs::Timers::due))]
    pub fn decided(rules: Rules, valid: bool, timers: Timers, cause: bool) -> Decision
        ensures { result ≡ decided rules valid timers cause }
    {
        if rules.enabled & valid & (timers.dead == 0) {
            if cause {
                Decision::Triggered
            } else if rules.repeat & (timers.report == Some(0)) {
                Decision::Reported
            } else {
                Decision::Silent
            }
        } else {
            Decision::Silent
        }
    }

    // For how many ticks no event goes out, if nothing but the timers changes: dead time alone holds a cause of the
    // sensor's own back.
    #[tactic(auto, unfolding(crate::specs::Quiet::silent_for))]
    pub fn silent_for(rules: Rules, valid: bool, timers: Timers, cause: bool) -> u32
        ensures { result ≡ silent_for rules valid timers cause }
    {
        if rules.enabled & valid {
            if cause {
                timers.dead.saturating_sub(1) as u32
            } else if rules.repeat {
                timers.held_for()
            } else {
                u32::MAX
            }
        } else {
            u32::MAX
        }
    }
}
