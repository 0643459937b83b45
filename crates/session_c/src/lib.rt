// The bench controller's call for a session, as C links it: the symbol, over the function of that name in crate `session`, with its clauses,
// word for word.
#![tactic(auto)]

ghost use Rattle.device.specs.Device.{fresh};
ghost use Rattle.record.specs.Log.{bytes_of};
ghost use Rattle.record.specs.Put.{put};
ghost use Rattle.session.specs.Session.{for_c, session};
ghost use Rattle.std.specs.Prelude.{length, ◌≡◌};

use session::Reading;

#[unsafe(no_mangle)]
pub extern "C" fn potmeander_session(input: &[u8], log: &mut [u8]) -> Reading
    ensures { (result ≡ for_c (session fresh input.now (length log.old))) × (log.new ≡ put 0 (bytes_of (session fresh input.now (length log.old)).log) log.old) }
{
    session::potmeander_session(input, log)
}
