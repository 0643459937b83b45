// Reading a session in pieces, through buffers that are shorter than it (document 01, "The bench model"): one step reads what is held,
// keeps what is unread at the front of the input buffer, and its number says what must come before the next.
#![tactic(auto)]

ghost use Rattle.std.specs.Prelude.{◌≡◌, ◌+◌, ◌-◌, ◌≤◌, min, length};
ghost use Rattle.record.specs.Marks.{mark_of};
ghost use Rattle.record.specs.Put.{put};
ghost use Rattle.stream.specs.Stream.{begun, goes_on, input_after, next_after, output_after, records_in, remaining, size_at, size_by, stepped};
ghost use Rattle.std.proofs.Math.Seq.{slice};

use device::Model;
use record::Mark;

// What must come before the next step: more input; an emptied output; nothing, since a record is refused for good.
#[derive(Clone, Copy)]
pub enum Next {
    MoreInput,
    EmptiedOutput,
    Over,
}

// What goes from one step to the next. unread: the bytes at the front of the input buffer that the next step begins
// with. number: the last step's; it stays one, as the outcome of a reading has it. records, passed: the records taken
// whole, and their bytes.
#[derive(Clone, Copy)]
pub struct Progress {
    pub model: Model,
    pub unread: usize,
    pub number: u8,
    pub records: u64,
    pub passed: u64,
}

// What a step came to. written: the bytes of log at the front of the output.
#[derive(Clone, Copy)]
pub struct Stepped {
    pub progress: Progress,
    pub written: usize,
}

// From that model, with nothing read.
#[tactic(auto, unfolding(crate::specs::Stream::begun))]
pub fn begin(start: Model) -> Progress
    ensures { result ≡ begun start }
{
    Progress {
        model: start,
        unread: 0,
        number: 0,
        records: 0,
        passed: 0,
    }
}

// After 2 it goes on with more input, after 9 with an emptied output. After 0 all was read, and more may come.
// It takes a number and no refusal: what it promises, it promises of every number, which a step's progress holds.
#[tactic(auto, unfolding(crate::specs::Stream::next_after))]
pub fn next_after(number: u8) -> Next
    ensures { result ≡ next_after number }
{
    match number {
        0 | 2 => Next::MoreInput,
        9 => Next::EmptiedOutput,
        _ => Next::Over,
    }
}

// Whether there is another step. ended: no more input can come.
#[tactic(auto, unfolding(crate::specs::Stream::goes_on))]
pub fn goes_on(number: u8, ended: bool) -> bool
    ensures { result ≡ goes_on number ended }
{
    match next_after(number) {
        Next::MoreInput => !ended,
        Next::EmptiedOutput => true,
        Next::Over => false,
    }
}

// Reads what is held, the unread bytes and the `came` bytes behind them, and moves what is unread then to the front of the input buffer:
// inside a TK, a TK of the ticks that remain.
#[tactic(auto, using(crate::proofs::Turns::within))]
pub fn step(p: Progress, came: usize, input: &mut [u8], output: &mut [u8]) -> Stepped
    ensures { (result ≡ stepped p came input.old output.old) × (input.new ≡ input_after p came input.old output.old) × (output.new ≡ output_after p came input.old output.old) }
{
    let end = held(p.unread, came, input.len());
    let o = session::read(p.model, &input[..end], output);
    let at = o.offset;
    let taken = records_in(&input[..at]);
    keep(input, at, end, o.ticks);
    Stepped {
        progress: Progress {
            model: o.model,
            unread: end - at,
            number: o.number,
            records: p.records.wrapping_add(taken),
            passed: p.passed.wrapping_add(at as u64),
        },
        written: o.written,
    }
}

// How many bytes are held, of a buffer of `all`.
fn held(unread: usize, came: usize, all: usize) -> usize
    ensures { result ≡ min (unread + came) all }
{
    unread.saturating_add(came).min(all)
}

// The records in bytes that were taken.
#[tactic(auto, using(crate::proofs::Records::sized))]
fn records_in(bytes: &[u8]) -> u64
    ensures { result ≡ records_in bytes.now }
{
    let mut rest = bytes;
    let mut n: u64 = 0;
    while !rest.is_empty() {
        rest = &rest[size_at(rest)..];
        n += 1;
    }
    n
}

// The size of the record at the front, not more than there is.
#[tactic(auto, unfolding(crate::specs::Stream::size_at))]
fn size_at(rest: &[u8]) -> usize
    ensures { result ≡ size_at rest.now }
{
    let all = rest.len();
    let [first, second, ..] = *rest else {
        return all;
    };
    size_by(record::word(first, second), all).min(all)
}

// By its mark; what no known mark begins goes for one record, all of it.
#[tactic(auto, unfolding(crate::specs::Stream::size_by))]
fn size_by(letters: u16, all: usize) -> usize
    ensures { result ≡ size_by (mark_of letters) all }
{
    record::mark_of(letters).map_or(all, |mark| mark.size())
}

// Keeps what is unread, from `at` up to `end`: it goes to the front. Of its first record `done` ticks were carried out.
fn keep(bytes: &mut [u8], at: usize, end: usize, done: u16)
    requires { (at ≤ end) × (end ≤ length bytes.old) }
    ensures { bytes.new ≡ put 0 (remaining done (slice at end bytes.old)) bytes.old }
{
    record::to_front(bytes, at, end);
    shorten(&mut bytes[..end - at], done);
}

// The record at the front was carried out for `done` ticks. Where that is above 0 it is a TK, and one of the ticks that remain takes its
// place.
#[tactic(auto, unfolding(crate::specs::Stream::remaining))]
fn shorten(rest: &mut [u8], done: u16)
    ensures { rest.new ≡ remaining done rest.old }
{
    if done == 0 || rest.len() < Mark::TK_SIZE {
        return;
    }
    let left = record::word(rest[2], rest[3]).saturating_sub(done);
    rest[..2].copy_from_slice(&Mark::TK.to_be_bytes());
    rest[2..4].copy_from_slice(&left.to_be_bytes());
}
