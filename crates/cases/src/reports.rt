// Answers in numbers, as a line begins.
use rules::{Extent, Refusal, Report};

pub fn accepted(x: u64, y: u64) -> Report {
    Report {
        number: 0,
        place: 0,
        a: x,
        b: y,
        c: 0,
    }
}

// No answer of document 01's: no wire type, no fixed width, no such op.
pub fn nothing() -> Report {
    Report {
        number: 255,
        place: 0,
        a: 0,
        b: 0,
        c: 0,
    }
}

pub fn checked(c: Result<(), Refusal>) -> Report {
    match c {
        Ok(()) => accepted(0, 0),
        Err(r) => r.in_numbers(),
    }
}

// A row is its table, bytes, records and payload bytes.
pub fn accepted_row(row: Extent) -> Report {
    Report {
        number: 0,
        place: row.table,
        a: row.bytes,
        b: row.records,
        c: row.payload,
    }
}

// The end is all zeros, which no row is: a row has bytes.
pub fn read(r: Result<Option<Extent>, Refusal>) -> Report {
    match r {
        Ok(Some(row)) => accepted_row(row),
        Ok(None) => accepted(0, 0),
        Err(why) => why.in_numbers(),
    }
}

// Why a run stopped.
pub fn stopped(stop: Result<(), Refusal>) -> Report {
    match stop {
        Ok(()) => accepted(0, 0),
        Err(why) => why.in_numbers(),
    }
}
