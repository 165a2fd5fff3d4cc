// Holds the recordings of examples/ to the reports that stand beside them, each recording read at once and in pieces.
// Arguments come in twos: a recording's file, and that of its report.
#![tactic(auto)]

ghost use Rattle.io.specs.Counts.{IsPrefixLen};

use format::{Came, INPUT};
use std::io::{Error, ErrorKind, Read, Write};
use std::rt::Files;
use std::{env, fs, io};

// What an argument names: an open file, or one that is not there, of which every read fails.
#[derive(Drop)]
struct Opened<F>(Option<F>);

impl<F: Read> Read for Opened<F> {
    fn read(&mut self, buf: &mut [u8]) -> io::Result<usize> {
        match &mut self.0 {
            Some(file) => file.read(buf),
            None => Err(Error::from(ErrorKind::NotFound)),
        }
    }
}

// Opens a file; says where there is none.
fn open<R: Files + Print>(rt: &R, path: &str) -> io::Result<Opened<R::File>> {
    let file = fs::open(rt, path).ok();
    if file.is_none() {
        print!(rt; "missing: ")?;
    }
    Ok(Opened(file))
}

// A recording, read as the program `tankair` reads its input.
fn read_input<F: Read + Drop>(mut file: Opened<F>, into: &mut [u8; INPUT], piece: usize) -> Came {
    format::read_recording(&mut file, into, piece)
}

// A report goes into `into`; answers how many bytes it has there.
fn read_stored<F: Read + Drop>(mut file: Opened<F>, into: &mut [u8]) -> usize
    ensures { IsPrefixLen result into.new }
{
    format::read_full(&mut file, into)
}

// A recording, read in such pieces, against the stored report. What the last read asked for is told too: it shows in
// what pieces it was read.
fn compare<R: Files + Print>(rt: &R, path: &str, piece: usize, stored: &[u8]) -> io::Result<()> {
    let mut bytes = [0u8; INPUT];
    let came = read_input(open(rt, path)?, &mut bytes, piece);
    let mut out = [0u8; report::ROOM];
    let length = report::report_read(&bytes, came, &mut out);
    let told = &out[..length];
    let asked = came.asked();
    print!(rt; "{path} (the last read asked for {asked} bytes)")?;
    if told == stored {
        println!(rt; ": its report is as stored")
    } else {
        println!(rt; ": its report is NOT as stored")?;
        io::writer(rt).write_all(told)
    }
}

// A recording, and its report behind it.
fn compare_pieces<R: Files + Print>(rt: &R, recording: &str, report: &str) -> io::Result<()> {
    let mut stored = [0u8; report::ROOM];
    let m = read_stored(open(rt, report)?, &mut stored);
    let stored = &stored[..m];
    for piece in [INPUT, 1, 1000] {
        compare(rt, recording, piece, stored)?;
    }
    Ok(())
}

// The program's own name comes first. Where the last recording has no report with it, that report is missing.
fn main(rt: HostRuntime) -> io::Result<()> {
    let names: Vec<String> = env::args(&rt)?.skip(1).collect(rt.alloc())?;
    for pair in names.chunks(2) {
        match pair {
            [recording, report] => compare_pieces(&rt, recording.as_str(), report.as_str())?,
            [recording] => compare_pieces(&rt, recording.as_str(), "")?,
            _ => {}
        }
    }
    Ok(())
}
