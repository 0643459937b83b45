// The bench controller's call for two logs, as C links it: the symbol, over the function of that name in crate `compare`, with its clauses,
// word for word.
#![tactic(auto)]

ghost use Rattle.compare.specs.Findings.{compared, for_c};
ghost use Rattle.std.specs.Prelude.{◌≡◌};

use compare::Compared;

#[unsafe(no_mangle)]
pub extern "C" fn potmeander_compare<'a>(device: &'a [u8], model: &'a [u8]) -> Compared
    ensures { result ≡ for_c (compared device.now model.now) device.now model.now }
{
    compare::potmeander_compare(device, model)
}
