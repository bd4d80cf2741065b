// An answer in numbers, and its layout in the answer slice. Each type of answer has a function of its own, which a theorem names: they differ in
// which numbers they fill.
#![tactic(auto)]

ghost use Rattle.std.specs.Prelude.{◌≡◌, ◌+◌, ◌≤◌, ◌∷◌, [], length};
ghost use Rattle.rules.specs.Bytes.{over};
ghost use Rattle.answers.specs.Answers.{words, answer_layout, no_refusal, extent_of_bytes, answer_of_read, answer_of_ran};
ghost use Rattle.answers.specs.Answers.{answer_of_written, answer_of_text, answer_of_checked, answer_of_known, answer_of_queried, answer_of_viewed};
ghost use Rattle.scalars.specs.Numbers.{SaysBits};

use rules::{Extent, Refusal, Report, Scalar, WireType};
use scalars::scalar_in_numbers;
use wire::code_of;
use wire::store::put64;

// An answer in numbers: 0 a row or what is accepted, 1 an end, 2 a refusal, 3 no wire type; why it is refused; the rows, and what they or the one row take.
#[derive(Clone, Copy)]
pub struct AnswerNumbers {
    pub what: u64,
    pub why: Report,
    pub rows: u64,
    pub row: Extent,
}

// What a call says that refuses nothing.
fn no_refusal() -> Report
    ensures { result ≡ no_refusal }
{
    Report {
        number: 0,
        place: 0,
        a: 0,
        b: 0,
        c: 0,
    }
}

// So many bytes, and nothing of a single row.
fn extent_of_bytes(bytes: u64) -> Extent
    ensures { result ≡ extent_of_bytes bytes }
{
    Extent {
        table: 0,
        bytes,
        records: 0,
        payload: 0,
    }
}

// A read in numbers.
pub fn answer_of_read(answer: Result<Option<Extent>, Refusal>) -> AnswerNumbers
    ensures { result ≡ answer_of_read answer }
{
    match answer {
        Ok(found) => match found {
            Some(row) => AnswerNumbers {
                what: 0,
                why: no_refusal(),
                rows: 1,
                row,
            },
            None => AnswerNumbers {
                what: 1,
                why: no_refusal(),
                rows: 0,
                row: extent_of_bytes(0),
            },
        },
        Err(refusal) => AnswerNumbers {
            what: 2,
            why: refusal.in_numbers(),
            rows: 0,
            row: extent_of_bytes(0),
        },
    }
}

// A row that was written, in numbers: as one that was read.
pub fn answer_of_written(answer: Result<Extent, Refusal>) -> AnswerNumbers
    ensures { result ≡ answer_of_written answer }
{
    match answer {
        Ok(row) => answer_of_read(Ok(Some(row))),
        Err(refusal) => answer_of_read(Err(refusal)),
    }
}

// A text that was written, in numbers: its bytes.
pub fn answer_of_text(answer: Result<u64, Refusal>) -> AnswerNumbers
    ensures { result ≡ answer_of_text answer }
{
    match answer {
        Ok(bytes) => AnswerNumbers {
            what: 0,
            why: no_refusal(),
            rows: 0,
            row: extent_of_bytes(bytes),
        },
        Err(refusal) => answer_of_read(Err(refusal)),
    }
}

// A check in numbers: all are 0 where nothing is refused.
pub fn answer_of_checked(answer: Result<(), Refusal>) -> AnswerNumbers
    ensures { result ≡ answer_of_checked answer }
{
    match answer {
        Ok(()) => AnswerNumbers {
            what: 0,
            why: no_refusal(),
            rows: 0,
            row: extent_of_bytes(0),
        },
        Err(refusal) => answer_of_read(Err(refusal)),
    }
}

// A wire type in numbers: its code in the table's place, or 3 where there is none.
pub fn answer_of_known(known: Option<WireType>) -> AnswerNumbers
    ensures { result ≡ answer_of_known known }
{
    match known {
        Some(t) => AnswerNumbers {
            what: 0,
            why: no_refusal(),
            rows: 0,
            row: Extent {
                table: code_of(t) as u64,
                bytes: 0,
                records: 0,
                payload: 0,
            },
        },
        None => AnswerNumbers {
            what: 3,
            why: no_refusal(),
            rows: 0,
            row: extent_of_bytes(0),
        },
    }
}

// A record's value in numbers: which case it is in the table's place, its number in the records', a payload's length in the payload's.
pub fn answer_of_queried(queried: Result<Scalar, Refusal>) -> AnswerNumbers
    requires { SaysBits queried }
    ensures { result ≡ answer_of_queried queried }
{
    match queried {
        Ok(scalar) => {
            let said = scalar_in_numbers(scalar);
            AnswerNumbers {
                what: 0,
                why: no_refusal(),
                rows: 0,
                row: Extent {
                    table: said.which,
                    bytes: 0,
                    records: said.number,
                    payload: said.length,
                },
            }
        }
        Err(refusal) => answer_of_read(Err(refusal)),
    }
}

// What is seen from a record, in numbers: its number in the records' place.
pub fn answer_of_viewed(viewed: Result<u64, Refusal>) -> AnswerNumbers
    ensures { result ≡ answer_of_viewed viewed }
{
    match viewed {
        Ok(number) => AnswerNumbers {
            what: 0,
            why: no_refusal(),
            rows: 0,
            row: Extent {
                table: 0,
                bytes: 0,
                records: number,
                payload: 0,
            },
        },
        Err(refusal) => answer_of_read(Err(refusal)),
    }
}

// A run in numbers.
pub fn answer_of_ran(rows: u64, bytes: u64, stop: Result<(), Refusal>) -> AnswerNumbers
    ensures { result ≡ answer_of_ran (record { rows = rows; bytes = bytes; stop = stop }) }
{
    match stop {
        Ok(()) => AnswerNumbers {
            what: 1,
            why: no_refusal(),
            rows,
            row: extent_of_bytes(bytes),
        },
        Err(refusal) => AnswerNumbers {
            what: 2,
            why: refusal.in_numbers(),
            rows,
            row: extent_of_bytes(bytes),
        },
    }
}

// Five numbers, one after another.
fn put_five(s: &mut [u8], at: usize, a: u64, b: u64, c: u64, d: u64, e: u64)
    requires { at + 40 ≤ length s.old }
    ensures { s.new ≡ over s.old at (words (a ∷ b ∷ c ∷ d ∷ e ∷ [])) }
{
    put64(s, at, a);
    put64(s, at + 8, b);
    put64(s, at + 16, c);
    put64(s, at + 24, d);
    put64(s, at + 32, e);
}

// The answer at the start of a slice that has room for it.
fn put_answer(s: &mut [u8], answer: AnswerNumbers)
    requires { 88 ≤ length s.old }
    ensures { s.new ≡ over s.old 0 (answer_layout answer) }
{
    let why = answer.why;
    let row = answer.row;
    put64(s, 0, answer.what);
    put_five(s, 8, why.number as u64, why.place, why.a, why.b, why.c);
    put_five(
        s,
        48,
        answer.rows,
        row.bytes,
        row.table,
        row.records,
        row.payload,
    );
}

// Gives an answer to the host: in its slice, and the refusal's number.
pub fn give(s: &mut [u8], answer: AnswerNumbers) -> u32
    requires { 88 ≤ length s.old }
    ensures { (result ≡ answer.why.number) × (s.new ≡ over s.old 0 (answer_layout answer)) }
{
    put_answer(s, answer);
    answer.why.number
}
