// What the sheets say of a session beside the table of its log, as a row of decimal numbers on descriptor 3: how many instances are declared, the tick that
// was reached, by which number a record was refused and where, whether a read failed, and of each instance its type, its resolution and whether it is of the
// sensor's other make (M-100, M-106, M-107).
use crate::reading::{Came, Ran};
use crate::saying::refused_by;
use sensor::{Basis, Kind};

const FACTS: i32 = 3;

pub fn write(r: &Ran) {
    let p = &r.progress;
    number(p.model.declared);
    number(p.model.tick);
    number(refused_by(r).unwrap_or(0));
    number(p.passed);
    number(matches!(r.came, Came::Failure));
    // Of all sixteen places: the sheets ask for those that are declared.
    for x in p.model.instances {
        number(x.kind.sensor_type());
        number(x.kind.resolution());
        number(is_other_make(x.kind));
    }
    io::write_all(FACTS, b"\n");
}

// Light built to the text of 2017, occupancy that is movement-based.
fn is_other_make(kind: Kind) -> bool {
    match kind {
        Kind::Light(light) => matches!(light.basis, Basis::Padded),
        Kind::Movement(_) => true,
        Kind::Occupancy(_) | Kind::Colour(_) => false,
    }
}

fn number(n: impl Into<u64> + Drop) {
    io::print_decimal(FACTS, n.into());
    io::write_all(FACTS, b" ");
}
