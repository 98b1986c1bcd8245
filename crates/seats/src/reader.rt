// The tape reader: a lent tape and the place of its next record, over functions of a plain slice and a number; document 01 names the form.
ghost use Rattle.std.specs.Prelude.{◌≡◌};
ghost use Rattle.seats.specs.Places.{is_end, record_at, record_end};

use crate::records::RECORD;

// A lent tape, and the place of its next record.
#[derive(Clone, Copy)]
pub struct TapeReader<'a> {
    pub tape: &'a [u8],
    pub at: usize,
}

// Whether no record starts at the place.
pub fn is_end(tape: &[u8], at: usize) -> bool
    ensures { result ≡ is_end tape.now at }
{
    tape.len() <= at
}

// Where the record at the place ends.
pub fn record_end(tape: &[u8], at: usize) -> usize
    ensures { result ≡ record_end tape.now at }
{
    let n = tape.len();
    if n < RECORD {
        return n;
    }
    if n - RECORD < at {
        return n;
    }
    at + RECORD
}

// The record at the place, empty at the end of the tape and beyond.
pub fn record_at(tape: &[u8], at: usize) -> &[u8]
    ensures { result.now ≡ record_at tape.now at }
{
    let e = record_end(tape, at);
    if e < at {
        return &tape[e..e];
    }
    &tape[at..e]
}

impl<'a> TapeReader<'a> {
    // A reader at the start of a tape.
    pub fn new(tape: &'a [u8]) -> TapeReader<'a>
        ensures { (result.tape ≡ tape.entry) × (result.at ≡ 0) }
    {
        TapeReader { tape, at: 0 }
    }

    // Whether the tape has no further record.
    pub fn ended(self) -> bool
        ensures { result ≡ is_end self.entry.tape.now self.entry.at }
    {
        is_end(self.tape, self.at)
    }

    // The next record, empty where there is none.
    pub fn next(self) -> &'a [u8]
        ensures { result.now ≡ record_at self.entry.tape.now self.entry.at }
    {
        record_at(self.tape, self.at)
    }

    // The reader moved on by one record.
    pub fn moved(self) -> TapeReader<'a>
        ensures { (result.tape ≡ self.entry.tape) × (result.at ≡ record_end self.entry.tape.now self.entry.at) }
    {
        let at = record_end(self.tape, self.at);
        TapeReader {
            tape: self.tape,
            at,
        }
    }
}
