// What the logs are read from: standard input, and the descriptors 3 and 4 that the launcher opened, by the names that the system has for them.
use crate::arguments::reads;
use std::env::Env;
use std::fs::{File, OpenOptions};
use std::io::{ErrorKind, Read, Seek, SeekFrom, Stderr, Stdin, Stdout};
use std::os::unix::fs::FileTypeExt;
use std::rt::Files;
use std::{fs, io};

// Where a descriptor is not open each read fails: it is a stream like the others, and no Option that its readers ask.
#[derive(Drop)]
pub enum Stream {
    Input(Stdin),
    Opened(File),
    Missing,
}

// Where the words go, and where the line about them goes.
#[derive(Clone, Copy)]
pub struct Outputs {
    pub out: Stdout,
    pub err: Stderr,
}

impl Read for Stream {
    fn read(&mut self, room: &mut [u8]) -> io::Result<usize> {
        match self {
            Stream::Input(input) => input.read(room),
            Stream::Opened(file) => file.read(room),
            Stream::Missing => Err(io::Error::from(ErrorKind::NotFound)),
        }
    }
}

// Of the flags that a descriptor is opened with those of the access, and what they are where it is only written.
const ACCESS: u64 = 0o3;

const WRITES: u64 = 0o1;

// What the system calls a descriptor, and what says where it stands.
#[derive(Clone, Copy)]
struct Descriptor {
    file: &'static str,
    state: &'static str,
}

// The first log, or the only one as it is read first: of `compare` the device's.
const FIRST: Descriptor = Descriptor {
    file: "/proc/self/fd/3",
    state: "/proc/self/fdinfo/3",
};

// The second, or the only one as it comes again: of `compare` the model's.
const SECOND: Descriptor = Descriptor {
    file: "/proc/self/fd/4",
    state: "/proc/self/fdinfo/4",
};

// The device's log and the model's. The word behind the program's name says which is standard input, where one is: that need not be opened again.
pub fn sides<F: Files<File = File> + Env>(system: &F, input: Stdin) -> (Stream, Stream) {
    if reads(system, 1, b"device") {
        let there = is_there(system, SECOND);
        return (Stream::Input(input), named(system, SECOND, there));
    }
    if reads(system, 1, b"model") {
        let there = is_there(system, FIRST);
        return (named(system, FIRST, there), Stream::Input(input));
    }
    pair(system)
}

// Both at once: a file that is opened takes the lowest number that is free, and must not be found by it.
pub fn pair<F: Files<File = File>>(files: &F) -> (Stream, Stream) {
    let first = is_there(files, FIRST);
    let second = is_there(files, SECOND);
    (named(files, FIRST, first), named(files, SECOND, second))
}

fn is_there(files: &impl Files, descriptor: Descriptor) -> bool {
    fs::metadata(files, descriptor.file).is_ok()
}

fn named<F: Files<File = File>>(files: &F, descriptor: Descriptor, there: bool) -> Stream {
    if !there {
        return Stream::Missing;
    }
    match opened(files, descriptor) {
        Ok(file) => Stream::Opened(file),
        Err(_) => Stream::Missing,
    }
}

// By its name it is opened a second time: a file from where the descriptor stands in it, a pipe also where its last writer is gone. It fails where it is open
// only to be written.
fn opened<F: Files<File = File>>(files: &F, descriptor: Descriptor) -> io::Result<File> {
    let state = asked(files, descriptor.state)?;
    if state.flags & ACCESS == WRITES {
        return Err(io::Error::from(ErrorKind::PermissionDenied));
    }
    let name = descriptor.file;
    let kind = fs::metadata(files, name)?.file_type();
    let writer = if kind.is_fifo() {
        held(files, name)
    } else {
        None
    };
    let mut file = File::open(files, name)?;
    drop(writer);
    if kind.is_file() {
        file.seek(SeekFrom::Start(state.place))?;
    }
    Ok(file)
}

// The system has one who opens a pipe wait for a writer, and there may be none any more: this is one meanwhile.
fn held<F: Files<File = File>>(files: &F, name: &str) -> Option<File> {
    OpenOptions::new()
        .read(true)
        .write(true)
        .open(files, name)
        .ok()
}

// Where a descriptor stands in a file, and its flags.
#[derive(Clone, Copy)]
struct State {
    place: u64,
    flags: u64,
}

fn asked<F: Files<File = File>>(files: &F, name: &str) -> io::Result<State> {
    let mut text = [0u8; 64];
    let count = File::open(files, name)?.read(&mut text)?;
    Ok(state_of(str::from_utf8(&text[..count]).unwrap_or("")))
}

// The first line has the place, in decimal digits, and the second the flags, in octal ones.
fn state_of(text: &str) -> State {
    let mut lines = text.lines();
    let place = value_in(lines.next());
    let flags = value_in(lines.next());
    State {
        place: place.parse().unwrap_or(0),
        flags: u64::from_str_radix(flags, 8).unwrap_or(0),
    }
}

// Behind a name and a tab.
fn value_in(line: Option<&str>) -> &str {
    line.and_then(|line| line.split_once('\t'))
        .map_or("", |(_, value)| value)
}
