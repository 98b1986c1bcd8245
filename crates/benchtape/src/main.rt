// Program benchtape: answers the records of standard input, from a fresh sitting on, by a line each on standard output, and adds the last line.
//
// Proved: what is handed over to be written is, for each part of the bytes that reading gave, the lines that the definitions give for it after the parts before, and then the last line for them all.
// A tape's lines are those of its parts and its last line that of the whole (`printed-parts`), so together they are what document 01 has printed.
// Trusted: that the standard streams move the bytes as the library says. No contract can speak of what is read or written, so the order of the calls is seen in the code.
// Where reading or writing fails, or 64 bits do not hold the number of records, the reason goes to standard error, and neither a further line nor the last line is written. The exit status is always 0, so a missing last line is the sign.

#![tactic(auto)]

ghost use Rattle.std.specs.Prelude.{true, ◌≡◌, IfOk};
ghost use Rattle.seats.specs.Tape.{fed};
ghost use Rattle.sittings.specs.Records.{step};
ghost use Rattle.sittings.specs.Reading.{read_sitting};
ghost use Rattle.benchtape.specs.Progress.{IsPrefixLen, last_line, Answered, Reached, Proceeded};

use graph::Refusal;
use seats::records::RECORD;
use seats::text::LINE;
use seats::{FeedError, text};
use sittings::{Sitting, tape};
use std::io::{Print, Read as _};
use std::{fmt, io};

// How many records are read at once.
const RECORDS: usize = 1024;

// How many bytes they have.
const CHUNK: usize = RECORDS * RECORD;

// How many bytes their lines take at the most.
const ROOM: usize = RECORDS * LINE;

// Why the program ends before the last line.
#[derive(Clone, Copy)]
enum Failure {
    Reading,
    Writing,
    TooManyRecords,
    NoRoomForLines,
    NoRoomForLastLine,
}

impl fmt::Display for Failure {
    fn fmt<W: fmt::Write>(&self, f: &mut fmt::Formatter<W>) -> fmt::Result {
        match self {
            Failure::Reading => write!(f, "reading failed"),
            Failure::Writing => write!(f, "writing failed"),
            Failure::TooManyRecords => write!(f, "too many records"),
            Failure::NoRoomForLines => write!(f, "no room for the lines"),
            Failure::NoRoomForLastLine => write!(f, "no room for the last line"),
        }
    }
}

impl From<Refusal> for Failure {
    fn from(_too_short: Refusal) -> Failure {
        Failure::NoRoomForLastLine
    }
}

impl From<FeedError> for Failure {
    fn from(error: FeedError) -> Failure {
        match error {
            FeedError::TooShort(_) => Failure::NoRoomForLines,
            FeedError::Uncounted => Failure::TooManyRecords,
        }
    }
}

// How far the program has come: the sitting, the records so far, and whether there may be more of them.
// The flag is a field beside the others, since the last line needs these when there are no more.
#[derive(Clone, Copy)]
struct Progress {
    sitting: Sitting,
    count: u64,
    more: bool,
}

// Zeros, to be read into.
fn chunk() -> [u8; CHUNK] {
    [0; CHUNK]
}

// Zeros, to be written into.
fn room() -> [u8; ROOM] {
    [0; ROOM]
}

// Reads until the buffer is full or the input ends; gives how many bytes were read.
// The loop is written out, since `read_to_end` would need a heap.
fn fill(rt: HostRuntime, buffer: &mut [u8]) -> io::Result<usize>
    ensures { IfOk result (λ n. IsPrefixLen n buffer.new) }
{
    let mut input = rt.stdin();
    let mut done: usize = 0;
    while done < buffer.len() {
        let n = input.read(&mut buffer[done..])?;
        if n == 0 {
            break;
        }
        done += n;
    }
    Ok(done)
}

// Writes the lines of these records, whoever calls it having shown that they are.
fn write_lines(rt: HostRuntime, progress: Progress, bytes: &[u8], lines: &[u8]) -> io::Result<()>
    requires { lines.now ≡ (fed step (read_sitting progress.sitting) progress.count bytes.now).0 }
{
    rt.stdout().write_all(lines)
}

// Writes the last line, whoever calls it having shown that it is.
fn write_last(rt: HostRuntime, progress: Progress, line: &[u8]) -> io::Result<()>
    requires { (Reached progress) × (line.now ≡ last_line progress) }
{
    rt.stdout().write_all(line)
}

// The records in these bytes are answered.
fn answer(rt: HostRuntime, progress: Progress, bytes: &[u8]) -> Result<Progress, Failure>
    ensures { IfOk result (λ r. Answered progress bytes.now r) }
{
    let mut room = room();
    let sitting = progress.sitting;
    let fed = tape::feed(sitting, progress.count, bytes, &mut room);
    let n = fed.answer?;
    write_lines(rt, progress, bytes, &room[..n]).map_err(|_| Failure::Writing)?;
    Ok(Progress {
        sitting: fed.sitting,
        count: fed.count,
        more: bytes.len() == CHUNK,
    })
}

// The next bytes are read, and their records answered.
fn proceed(rt: HostRuntime, progress: Progress) -> Result<Progress, Failure>
    requires { (Reached progress) × (progress.more ≡ true) }
    ensures { IfOk result (λ r. Proceeded progress r) }
{
    let mut buffer = chunk();
    let n = fill(rt, &mut buffer).map_err(|_| Failure::Reading)?;
    answer(rt, progress, &buffer[..n])
}

// All records of standard input, from a fresh sitting on.
fn answer_all(rt: HostRuntime) -> Result<Progress, Failure>
    ensures { IfOk result (λ r. Reached r) }
{
    let sitting = tape::fresh();
    let mut progress = Progress {
        sitting,
        count: 0,
        more: true,
    };
    while progress.more {
        progress = proceed(rt, progress)?;
    }
    Ok(progress)
}

// The last line is written.
fn finish(rt: HostRuntime, progress: Progress) -> Result<(), Failure>
    requires { Reached progress }
{
    let mut room = [0u8; 64];
    let sitting = progress.sitting;
    let edges = u64::from(sitting.lent().state.graph.edge_count());
    let n = text::write_end(&mut room, progress.count, edges)?;
    write_last(rt, progress, &room[..n]).map_err(|_| Failure::Writing)
}

// Standard input is answered whole.
fn run(rt: HostRuntime) -> Result<(), Failure> {
    let progress = answer_all(rt)?;
    finish(rt, progress)
}

fn main(rt: HostRuntime) {
    if let Err(failure) = run(rt) {
        let _said = eprintln!(rt; "benchtape: {failure}").is_ok();
    }
}
