// The run over a whole stream: the format is checked once, at the door, and each row is judged by the one walk.
#![tactic(auto)]

ghost use Rattle.std.specs.Prelude.{◌≡◌, suc, length, Err};
ghost use Rattle.rules.specs.Reading.{limits, run_from, run_rule, ran_of};
ghost use Rattle.row.specs.Steps.{ThroughDoor};

use row::door::door;
use row::steps::{block_at, row_of};
use rules::{Door, Format, Ran, Refusal, Settings};

// The run as far as it got.
fn ran_to(rows: u64, at: usize, stop: Result<(), Refusal>) -> Ran
    ensures { result ≡ record { rows = rows; bytes = at; stop = stop } }
{
    Ran {
        rows,
        bytes: at as u64,
        stop,
    }
}

// The rows from the start on, up to the end or the first refusal.
pub fn run_rows(format: &Format, input: &[u8], settings: Settings) -> Ran
    requires { ThroughDoor format.now input.now settings }
    ensures { result ≡ ran_of (run_from format.now input.now (limits settings) (suc (length input.now)) 0) }
{
    let mut rows: u64 = 0;
    let mut at: usize = 0;
    // A `while`: the position moves by a row's bytes, which no range counts.
    while at < input.len() {
        // `row_at`'s two steps, made here: a call of it would hand each row's answer through memory once more.
        let found = block_at(format, input, at);
        let Ok(block) = found else {
            return ran_to(rows, at, Err(found.unwrap_err()));
        };
        let read = row_of(format.table, input, at, block, settings);
        let Ok(row) = read else {
            return ran_to(rows, at, Err(read.unwrap_err()));
        };
        at += row.bytes as usize;
        rows += 1;
    }
    ran_to(rows, at, Ok(()))
}

// The run over a whole stream: rows and bytes up to its end or its first refusal.
pub fn run(settings: Settings, format: &Format, input: &[u8]) -> Ran
    ensures { result ≡ ran_of (run_rule format.now settings input.now) }
{
    let entry = door(settings, format, input, 0);
    match entry {
        Ok(opened) => match opened {
            Door::Open => run_rows(format, input, settings),
            Door::End => ran_to(0, 0, Ok(())),
        },
        Err(why) => ran_to(0, 0, Err(why)),
    }
}
