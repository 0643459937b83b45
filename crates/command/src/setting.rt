// The setting commands: what each makes of the settings, of the timers and of the triggers that wait.
ghost use Rattle.command.specs.Setting.{changed, filtered, obeyed, retimed, retimed_report};
ghost use Rattle.std.specs.Prelude.{◌≡◌};

use opcode::Command;
use sensor::{Instance, Kind, Settings};
use timers::{Rules, Timers};

// What a command makes of the settings. kept: the filter bits that the type keeps.
#[tactic(auto, unfolding(crate::specs::Setting::bounded_filter, crate::specs::Setting::bounded_hold, crate::specs::Setting::bounded_hysteresis, crate::specs::Setting::bounded_priority, crate::specs::Setting::changed))]
pub fn changed(mut settings: Settings, command: Command, dtr0: u8, kept: u8) -> Settings
    ensures { result ≡ changed settings command dtr0 kept }
{
    match command {
        Command::SetPriority if (2..=5).contains(&dtr0) => settings.priority = dtr0,
        Command::Enable => settings.enabled = true,
        Command::Disable => settings.enabled = false,
        Command::SetFilter => settings.filter = dtr0 & kept,
        Command::SetReport => settings.report = dtr0,
        Command::SetDeadtime => settings.deadtime = dtr0,
        Command::SetHysteresis if dtr0 <= 25 => settings.hysteresis = dtr0,
        Command::SetHysteresisMin => settings.minimum = dtr0,
        Command::SetHold if dtr0 < 255 => settings.hold = dtr0,
        Command::SetValidFilter if dtr0 <= kept => settings.filter = dtr0,
        // Out of bounds: no change.
        Command::SetPriority
        | Command::SetHysteresis
        | Command::SetHold
        | Command::SetValidFilter => {}
    }
    settings
}

// The same of the settings that their owner lends, changed where they lie.
pub fn apply(settings: &mut Settings, command: Command, dtr0: u8, kept: u8)
    ensures { settings.new ≡ changed settings.old command dtr0 kept }
{
    *settings = changed(*settings, command, dtr0, kept);
}

// What a command makes of the instance: its settings, its timers, its waiting triggers.
#[tactic(auto, unfolding(crate::specs::Setting::block_changed, crate::specs::Setting::obeyed))]
pub fn obeyed(mut x: Instance, command: Command, dtr0: u8) -> Instance
    ensures { result ≡ obeyed x command dtr0 }
{
    apply(&mut x.settings, command, dtr0, x.kind.kept());
    x.timers = retimed(x.timers, command, x.kind.rules(x.settings));
    x.kind = filtered(x.kind, command, x.settings.filter);
    x
}

// Disabling clears the triggers that wait; a new filter keeps only those it allows.
#[tactic(auto, unfolding(crate::specs::Setting::filtered))]
fn filtered(kind: Kind, command: Command, filter: u8) -> Kind
    ensures { result ≡ filtered kind command filter }
{
    match command {
        Command::Disable => kind.allowing(0),
        Command::SetFilter | Command::SetValidFilter => kind.allowing(filter),
        _ => kind,
    }
}

// A new time serves from the next start of its timer, with three exceptions. rules: with the new settings.
#[tactic(auto, unfolding(crate::specs::Setting::retimed, crate::specs::Setting::retimed_dead))]
fn retimed(timers: Timers, command: Command, rules: Rules) -> Timers
    ensures { result ≡ retimed timers command rules }
{
    match command {
        Command::SetReport => Timers {
            report: retimed_report(timers.report, rules),
            ..timers
        },
        // Deadtime set to 0 ends dead time at once (M-103).
        Command::SetDeadtime if rules.deadtime == 0 => Timers { dead: 0, ..timers },
        _ => timers,
    }
}

// Set to 0 it stops at once; set above 0 while stopped it starts at once.
#[tactic(auto, unfolding(crate::specs::Setting::retimed_report))]
fn retimed_report(report: Option<u16>, rules: Rules) -> Option<u16>
    ensures { result ≡ retimed_report report rules }
{
    if rules.report == 0 {
        None
    } else {
        report.or(rules.started_report())
    }
}
