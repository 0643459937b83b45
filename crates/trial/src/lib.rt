// For the comparison with the second implementation alone: a session read from a later tick number than 0, since the last number,
// 4,294,967,295, is out of a test's reach; and behind another session, since a refused record ends its own, and what it left of the
// model shows only in another.
#![tactic(auto)]

ghost use Rattle.record.specs.Log.{bytes_of};
ghost use Rattle.record.specs.Put.{put};
ghost use Rattle.session.specs.Session.{for_c, session};
ghost use Rattle.trial.specs.Later.{first};
ghost use Rattle.std.specs.Prelude.{length, ◌≡◌};

use device::Model;
use session::Reading;

pub fn trial_session(tick: u32, before: &[u8], input: &[u8], log: &mut [u8]) -> Reading
    ensures { (result ≡ for_c (session (first tick before.now (length log.old)).model input.now (length log.old))) × (log.new ≡ put 0 (bytes_of (session (first tick before.now (length log.old)).model input.now (length log.old)).log) (put 0 (bytes_of (first tick before.now (length log.old)).log) log.old)) }
{
    let later = Model {
        tick,
        ..device::fresh()
    };
    let left = session::read(later, before, log);
    session::read_for_c(left.model, input, log)
}
