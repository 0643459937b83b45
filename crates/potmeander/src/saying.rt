// The line on standard error: what was read and logged; the record that was refused, if one was; the read or write that failed, if one did.
use crate::reading::{Came, Ran};
use std::fmt;
use std::io::{Print, Stderr};

pub fn say(to: Stderr, r: &Ran) {
    let _ = to.println(Line(r));
}

#[derive(Clone, Copy)]
struct Line<'a>(&'a Ran);

impl fmt::Display for Line<'_> {
    fn fmt<W: fmt::Write>(&self, f: &mut fmt::Formatter<W>) -> fmt::Result {
        let r = self.0;
        let p = &r.progress;
        let records = Counted(p.records, "record");
        let bytes = Counted(p.passed, "byte");
        let ticks = Counted(u64::from(p.model.tick), "tick");
        let logged = Counted(r.logged, "byte");
        write!(
            f,
            "potmeander: {records}, {bytes} read; {ticks}; {logged} logged"
        )?;
        // A record that is cut is refused once no more input can come.
        if let Some(number) = refused_by(r) {
            let offset = p.passed;
            let words = words_of(number);
            write!(f, "; record refused at byte {offset}: {number}, {words}")?;
        }
        match r.came {
            Came::Failure => {
                let after = Counted(p.passed.wrapping_add(p.unread as u64), "byte");
                write!(f, "; reading the session failed after {after}")
            }
            Came::Bytes | Came::End if r.lost > 0 => {
                let lost = Counted(r.lost, "byte");
                write!(
                    f,
                    "; writing the log failed, {lost} of it lost, and the session was not read further",
                )
            }
            Came::Bytes | Came::End => Ok(()),
        }
    }
}

// So many of something. `logs` has `Many` beside it: two programs, and no crate of words below both.
#[derive(Clone, Copy)]
struct Counted(u64, &'static str);

impl fmt::Display for Counted {
    fn fmt<W: fmt::Write>(&self, f: &mut fmt::Formatter<W>) -> fmt::Result {
        let n = self.0;
        let noun = self.1;
        let plural = if n == 1 { "" } else { "s" };
        write!(f, "{n} {noun}{plural}")
    }
}

// The number by which a record is refused for good, if one is.
pub fn refused_by(r: &Ran) -> Option<u8> {
    let number = r.progress.number;
    let refused = match r.came {
        Came::End => number > 0,
        Came::Bytes | Came::Failure => !stream::goes_on(number, false),
    };
    refused.then_some(number)
}

// Document 01, "Numbers given when a record is not taken", with M-100, M-106, M-107 and M-110. They go by the number: a step hands on no other.
fn words_of(number: u8) -> &'static str {
    match number {
        1 => "mark unknown",
        2 => "fewer bytes remain than the mark, or the record, needs",
        3 => "IN, LO or IM after a record of another kind, or its number isn't the next",
        4 => "IN, LO or IM number 16 or above, or a type and resolution that it does not declare",
        5 => "SA for an undeclared instance",
        6 => "SA status or value not allowed",
        7 => "TK count 0",
        8 => "tick number would pass 4,294,967,295",
        10 => "tick number would pass 3,456,000, the last of the hour table",
        13 => "SA status 1 for an instance that has had a valid sample",
        _ => "its log doesn't fit in the output",
    }
}
