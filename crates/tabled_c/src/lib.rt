// The bench controller's call for a session with the hour table in use, as C links it: the symbol, over the function
// of that name in crate `tabled`, with its clauses, word for word.
#![tactic(auto)]

ghost use Rattle.hours.specs.Table.{event_table, gap_table};
ghost use Rattle.record.specs.Log.{bytes_of};
ghost use Rattle.record.specs.Put.{put};
ghost use Rattle.session.specs.Session.{for_c, session};
ghost use Rattle.tabled.specs.InUse.{in_use};
ghost use Rattle.std.specs.Prelude.{length, ◌≡◌};

use session::Reading;

#[unsafe(no_mangle)]
pub extern "C" fn potmeander_session_hours(
    input: &[u8],
    log: &mut [u8],
    events: &mut [u32],
    gaps: &mut [u32],
) -> Reading
    ensures { (result ≡ for_c (session in_use input.now (length log.old))) × (log.new ≡ put 0 (bytes_of (session in_use input.now (length log.old)).log) log.old) × (events.new ≡ event_table (session in_use input.now (length log.old)).log events.old) × (gaps.new ≡ gap_table (session in_use input.now (length log.old)).log gaps.old) }
{
    tabled::potmeander_session_hours(input, log, events, gaps)
}
