// The program behind `./potmeander compare`, `show`, `hours`, `hour` and the sheets of `--sheets`. The launcher opens its files, and tells it by the words
// behind its name what to do: with none it shows the log, or the session, on standard input as text; with one it lays the device's log, descriptor 3, beside
// the model's, descriptor 4, of which `device` or `model` says that it is standard input; with `hour K` it writes the part of the log, which comes as 3 and
// again as 4, that holds hour K; with more it prints the hour table of the log on standard input: `hours MINUTE HOURS INSTANCES`, with labels from that
// minute of the day on, and behind that, of a session's log, what the model said of it.
#![tactic(auto)]

mod arguments;
mod comparing;
mod parting;
mod rows;
mod saying;
mod sheets;
mod showing;
mod source;
mod streams;
mod tabling;
mod words;

use streams::{Outputs, Stream, pair, sides};

fn main(rt: HostRuntime) {
    let mut device = [0u8; 65536];
    let mut model = [0u8; 65536];
    let mut input = Stream::Input(rt.stdin());
    let to = Outputs {
        out: rt.stdout(),
        err: rt.stderr(),
    };
    match arguments::count(&rt) {
        0 | 1 => showing::run(&mut input, to, &mut device),
        2 => {
            let (mut of_device, mut of_model) = sides(&rt, rt.stdin());
            let laid = comparing::run(&mut of_device, &mut of_model, &mut device, &mut model);
            saying::say(to, laid);
        }
        3 => {
            let hour = arguments::argument(&rt, 2);
            let (mut judged, mut copied) = pair(&rt);
            parting::part(hour, &mut judged, &mut copied, to, &mut device);
        }
        count => {
            let asked = tabling::asked_by(&rt, count);
            tabling::print(&rt, asked, &mut input, to, &mut device);
        }
    }
}
