// What is decided from the numbers that reads answer: the end of a file is a read of no bytes, and a failed read is none.
#![tactic(auto)]

pub mod filling;

ghost use Rattle.std.specs.Prelude.{◌≡◌};
ghost use Rattle.reads.specs.Outcomes.{outcome_of, table_read};

use rules::Ran;

// Why a run over a file has no answer: a row at a position does not end in the window, or a read failed.
#[derive(Clone, Copy)]
pub enum RunFailure {
    NoRoom(u64),
    Unreadable,
}

// From the run so far, where the window took no more bytes or the last read delivered none. One more read, of one byte, answers `last`.
pub fn outcome_of_last_read(last: isize, ran: Ran, full: bool) -> Result<Ran, RunFailure>
    ensures { result ≡ outcome_of last ran full }
{
    if last == 0 {
        return Ok(ran);
    }
    if last != 1 {
        return Err(RunFailure::Unreadable);
    }
    if full {
        Err(RunFailure::NoRoom(ran.bytes))
    } else {
        Err(RunFailure::Unreadable)
    }
}

// Why a table was not read whole.
#[derive(Clone, Copy)]
pub enum TableFailure {
    TooLong,
    Unreadable,
}

// The table's bytes end at `end`, in a space of which the stream needs some bytes too. One more read answers `last`.
pub fn table_read(end: usize, space: usize, last: isize) -> Result<(), TableFailure>
    ensures { result ≡ table_read end space last }
{
    if end == space {
        return Err(TableFailure::TooLong);
    }
    if last == 0 {
        Ok(())
    } else {
        Err(TableFailure::Unreadable)
    }
}
