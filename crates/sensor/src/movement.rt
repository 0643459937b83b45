// The movement-based occupancy sensor (type 3; IEC 62386-303, 9.3.2; M-100). Movement and a hold timer come to the
// value that a presence-based sensor would measure, and what is made of that value is the presence-based sensor's.
ghost use Rattle.std.specs.Prelude.{◌≡◌};
ghost use Rattle.sensor.specs.Fresh.{movement_fresh};
ghost use Rattle.sensor.specs.Movement.{area, hold_after, hold_time, letting, movement_allowing, movement_allows, movement_cancelled, movement_cause, movement_caught, movement_information, movement_input, movement_sent, movement_taken, shown};
ghost use Rattle.sensor.specs.Quiet.{movement_falls_for, movement_rested, movement_settled};

use crate::instance::Instance;
use crate::kind::Kind;
use crate::occupancy::{Occupancy, allows_below};
use crate::settings::{Sample, Settings};

// seen: as a presence-based sensor sees the area. hold: the ticks left of the hold time, which runs at 0xAA alone; 0
// there has expired.
#[derive(Clone, Copy)]
pub struct Movement {
    pub seen: Occupancy,
    pub hold: u16,
    pub catching: bool,
}

impl Movement {
    // Type, resolution, units and the other defaults are those of type 3, which Occupancy carries.
    pub const HOLD: u8 = 90;

    pub const HOLD_UNIT: u16 = 200;

    // The hold time of multiplier 0.
    pub const LEAST_HOLD: u16 = 20;

    // The bit of Movement, in a filter and among triggers.
    pub const MOVEMENT: u8 = 8;

    // The opcodes of movement alone (IEC 62386-303, Table 10); those of presence it has too.
    pub const CATCH: u8 = 0x20;

    pub const SET_HOLD: u8 = 0x21;

    pub const CANCEL_HOLD: u8 = 0x24;

    pub const QUERY_HOLD: u8 = 0x2D;

    pub const QUERY_CATCHING: u8 = 0x2F;

    #[tactic(auto, unfolding(crate::specs::Fresh::movement_fresh))]
    pub fn fresh() -> Instance
        ensures { result ≡ movement_fresh }
    {
        let settings = Settings {
            hold: Movement::HOLD,
            ..Occupancy::defaults()
        };
        let movement = Movement {
            seen: Occupancy::START,
            hold: 0,
            catching: false,
        };
        Instance::fresh(Kind::Movement(movement), settings, Sample::STILL)
    }

    // Which samples it takes: bit 0, movement, alone.
    #[tactic(auto, unfolding(crate::specs::Movement::movement_allows))]
    pub fn allows(sample: Sample) -> bool
        ensures { result ≡ movement_allows sample }
    {
        allows_below(sample, 2)
    }

    // The hold timer falls, and the sample of this tick is taken.
    #[tactic(auto, unfolding(crate::specs::Movement::movement_taken))]
    pub fn taken(self, settings: Settings, held: Sample) -> Movement
        ensures { result ≡ movement_taken self settings held }
    {
        let left = self.hold.saturating_sub(1);
        let shown = self.shown(held, left == 0);
        let seen = self.seen.taken(self.letting(settings), shown);
        Movement {
            seen,
            hold: hold_after(settings, self.seen.value, seen.value, left),
            ..self
        }
    }

    // The sample as a presence-based sensor would have it. over: the hold time is.
    #[tactic(auto, unfolding(crate::specs::Movement::shown))]
    fn shown(self, held: Sample, over: bool) -> Sample
        ensures { result ≡ shown self held over }
    {
        let value = area(self.seen.value, held.value % 2 == 1, over);
        Sample {
            value: value as u32,
            ..held
        }
    }

    // Catching lets Movement through as if its filter bit were set.
    #[tactic(auto, unfolding(crate::specs::Movement::letting))]
    fn letting(self, settings: Settings) -> Settings
        ensures { result ≡ letting self settings }
    {
        if self.catching {
            Settings {
                filter: settings.filter | Movement::MOVEMENT,
                ..settings
            }
        } else {
            settings
        }
    }

    #[tactic(auto, unfolding(crate::specs::Movement::movement_cause))]
    pub fn cause(self) -> bool
        ensures { result ≡ movement_cause self }
    {
        self.seen.cause()
    }

    // An event clears all that wait; with Movement among them it ends catching.
    #[tactic(auto, unfolding(crate::specs::Movement::movement_sent))]
    pub fn sent(self) -> Movement
        ensures { result ≡ movement_sent self }
    {
        Movement {
            seen: self.seen.sent(),
            catching: self.catching & (self.seen.waiting / Movement::MOVEMENT % 2 == 0),
            ..self
        }
    }

    // What an event says: bit 3 is 1.
    #[tactic(auto, unfolding(crate::specs::Movement::movement_information))]
    pub fn information(self, repeats: bool) -> u16
        ensures { result ≡ movement_information self repeats }
    {
        self.seen.information(repeats) | 8
    }

    // inputValue, as queries show it.
    #[tactic(auto, unfolding(crate::specs::Movement::movement_input))]
    pub fn input(self) -> u32
        ensures { result ≡ movement_input self }
    {
        self.seen.input()
    }

    // Of the triggers that wait, only those go on waiting that `allowed` has.
    #[tactic(auto, unfolding(crate::specs::Movement::movement_allowing))]
    pub fn allowing(self, allowed: u8) -> Movement
        ensures { result ≡ movement_allowing self allowed }
    {
        Movement {
            seen: self.seen.allowing(allowed),
            ..self
        }
    }

    // Catch movement: for a filter without Movement; where it has that, nothing is left to catch.
    #[tactic(auto, unfolding(crate::specs::Movement::movement_caught))]
    pub fn caught(self, settings: Settings) -> Movement
        ensures { result ≡ movement_caught self settings }
    {
        Movement {
            catching: settings.filter / Movement::MOVEMENT % 2 == 0,
            ..self
        }
    }

    // Cancel hold: a running hold expires at the next tick.
    #[tactic(auto, unfolding(crate::specs::Movement::movement_cancelled))]
    pub fn cancelled(self) -> Movement
        ensures { result ≡ movement_cancelled self }
    {
        Movement {
            hold: self.hold.min(1),
            ..self
        }
    }

    // Taking the held sample again does no more than let the hold timer fall.
    #[tactic(auto, unfolding(crate::specs::Quiet::movement_settled))]
    pub fn settled(self, settings: Settings, held: Sample) -> bool
        ensures { result ≡ movement_settled self settings held }
    {
        self.seen.settled(settings, self.shown(held, false))
            & ((self.seen.value == 2) | (self.hold == 0))
    }

    // For how many ticks the hold timer does not expire; in a failure it has nothing to say.
    #[tactic(auto, unfolding(crate::specs::Quiet::movement_falls_for))]
    pub fn falls_for(self, held: Sample) -> u32
        ensures { result ≡ movement_falls_for self held }
    {
        if (held.status == 0) & (self.seen.value == 2) {
            self.hold.saturating_sub(1) as u32
        } else {
            u32::MAX
        }
    }

    // After n such ticks.
    #[tactic(auto, unfolding(crate::specs::Quiet::movement_rested))]
    pub fn rested(self, n: u32) -> Movement
        ensures { result ≡ movement_rested self n }
    {
        Movement {
            hold: (self.hold as u32).saturating_sub(n) as u16,
            ..self
        }
    }
}

// The value at a tick, by the one before: 3 occupied and moving, 2 occupied and still, 0 vacant once the hold time is
// over.
#[tactic(auto, unfolding(crate::specs::Movement::area, crate::specs::Movement::stilled))]
fn area(old: u8, moves: bool, over: bool) -> u8
    ensures { result ≡ area old moves over }
{
    match old {
        _ if moves => 3,
        // 1 is 0x55, as for presence
        0 | 1 => 0,
        2 if over => 0,
        _ => 2,
    }
}

// The hold timer starts where the value comes to 0xAA, and runs there alone.
#[tactic(auto, unfolding(crate::specs::Movement::hold_after))]
fn hold_after(settings: Settings, old: u8, new: u8, left: u16) -> u16
    ensures { result ≡ hold_after settings old new left }
{
    if new != 2 {
        0
    } else if old == 2 {
        left
    } else {
        hold_time(settings)
    }
}

#[tactic(auto, unfolding(crate::specs::Movement::hold_time))]
fn hold_time(settings: Settings) -> u16
    ensures { result ≡ hold_time settings }
{
    if settings.hold == 0 {
        Movement::LEAST_HOLD
    } else {
        (settings.hold as u16) * Movement::HOLD_UNIT
    }
}
