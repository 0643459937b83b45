// The bench controller's calls for the hour table of a log and for the part of one hour, as C links them: each symbol,
// over the function of that name in crate `hours`, with its clauses, word for word.
#![tactic(auto)]

ghost use Rattle.hours.specs.Parts.{part_of};
ghost use Rattle.hours.specs.Tallies.{events_filled, gaps_filled, tally_of};
ghost use Rattle.std.specs.Prelude.{◌≡◌};

use hours::{Part, Tally};

#[unsafe(no_mangle)]
pub extern "C" fn potmeander_hours(log: &[u8], events: &mut [u32], gaps: &mut [u32]) -> Tally
    ensures { (result ≡ tally_of log.now) × (events.new ≡ events_filled log.now events.old) × (gaps.new ≡ gaps_filled log.now gaps.old) }
{
    hours::potmeander_hours(log, events, gaps)
}

#[unsafe(no_mangle)]
pub extern "C" fn potmeander_hour(log: &[u8], hour: u64) -> Part
    ensures { result ≡ part_of log.now hour }
{
    hours::potmeander_hour(log, hour)
}
