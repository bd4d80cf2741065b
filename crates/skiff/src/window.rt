// The call that reads a stream in windows.
ghost use Rattle.std.specs.Prelude.{◌≡◌};
ghost use Rattle.schema.specs.Slices.{slices};
ghost use Rattle.answers.specs.Answers.{answer_of_window};
ghost use Rattle.skiff.specs.Calls.{settings_of, run_window_given};

use super::ANSWER;
use answers::{AnswerNumbers, answer_of_ran, give};
use rules::{Extent, Format, Refusal, Settings};
use windows::{goes_on, run_after};

// A run over a window in numbers: the run's own, and 1 in the table's place where more bytes may change it.
fn answer_of_window(rows: u64, bytes: u64, stop: Result<(), Refusal>) -> AnswerNumbers
    ensures { result ≡ answer_of_window (record { rows = rows; bytes = bytes; stop = stop }) }
{
    let ran = answer_of_ran(rows, bytes, stop);
    let why = ran.why;
    let may_change = if goes_on(stop) { 1 } else { 0 };
    AnswerNumbers {
        what: ran.what,
        why,
        rows,
        row: Extent {
            table: may_change,
            bytes,
            records: 0,
            payload: 0,
        },
    }
}

// All rows of a window, which begins where the rows so far end.
pub fn skiff2_run_window(
    node_charge: u64,
    max_string32_bytes: u64,
    max_yson32_bytes: u64,
    max_row_bytes: u64,
    table: &[u8],
    names: &[u8],
    references: &[u8],
    registry: &[u8],
    window: &[u8],
    rows: u64,
    bytes: u64,
    answer: &mut [u8],
) -> u32
    ensures { record { number = result; answer = answer.new }
        ≡ run_window_given (slices table.now names.now references.now registry.now)
        (settings_of node_charge max_string32_bytes max_yson32_bytes max_row_bytes) window.now rows bytes answer.old }
{
    if answer.len() < ANSWER {
        return 1;
    }
    let settings = Settings {
        node_charge,
        max_string32_bytes,
        max_yson32_bytes,
        max_row_bytes,
    };
    let format = Format {
        table,
        names,
        references,
        registry,
    };
    let ran = run_after(settings, rows, bytes, &format, window);
    let stop = ran.stop;
    give(answer, answer_of_window(ran.rows, ran.bytes, stop))
}
