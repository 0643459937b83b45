// Document 01, "A full session, bytes in hex", through the call for C. To standard output go its log, and on a line of their own the
// number, the offset, the bytes written and the ticks carried out.
#![tactic(auto)]

use std::io::Print;

#[tactic(auto, using(session::proofs::Bounds::for_c_within))]
fn main(rt: HostRuntime) {
    let input =
        b"IN\x00\x04\x08SA\x00\x00\x00\x00\x64TK\x00\x01SA\x00\x00\x00\x00\x5ETK\x00\x28FR\x01\x00\x8C";
    let mut log = [0u8; 400];
    let r = session::potmeander_session(input, &mut log);
    let _ = rt.write_all(&log[..r.written as usize]);
    let _ = println!(rt; "\n{} {} {} {}", r.number, r.offset, r.written, r.ticks);
}
