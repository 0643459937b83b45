// The call of crate `trial`, as C links it: the symbol, over the function of that name in crate `trial`, with its clauses, word for word. For the
// comparison with the second implementation alone.
#![tactic(auto)]

ghost use Rattle.record.specs.Log.{bytes_of};
ghost use Rattle.record.specs.Put.{put};
ghost use Rattle.session.specs.Session.{for_c, session};
ghost use Rattle.trial.specs.Later.{first};
ghost use Rattle.std.specs.Prelude.{length, ◌≡◌};

use session::Reading;

#[unsafe(no_mangle)]
pub extern "C" fn trial_session(tick: u32, before: &[u8], input: &[u8], log: &mut [u8]) -> Reading
    ensures { (result ≡ for_c (session (first tick before.now (length log.old)).model input.now (length log.old))) × (log.new ≡ put 0 (bytes_of (session (first tick before.now (length log.old)).model input.now (length log.old)).log) (put 0 (bytes_of (first tick before.now (length log.old)).log) log.old)) }
{
    trial::trial_session(tick, before, input, log)
}
