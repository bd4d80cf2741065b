// The run over a stream that comes in windows: the run over what came so far, and then on over the next window.
#![tactic(auto)]

ghost use Rattle.std.specs.Prelude.{◌≤◌, ◌≡◌, length};
ghost use Rattle.rules.specs.Bytes.{longest_slice};
ghost use Rattle.rules.specs.Reading.{run_rule, ran_of};
ghost use Rattle.rules.specs.Windows.{moved, PlaceInside, goes_on, added, run_after};
ghost use Rattle.windows.specs.Bounds.{Counted, Further};

pub mod space;

use rules::{Format, LONGEST, Ran, Refusal, Settings};
use run::run;

// Whether bytes to come may change how a run stops: at the end, or where a row is cut (12).
pub fn goes_on(stop: Result<(), Refusal>) -> bool
    ensures { result ≡ goes_on stop }
{
    match stop {
        Ok(()) => true,
        Err(why) => {
            let report = why.in_numbers();
            report.number == 12
        }
    }
}

// A refusal of a window, told of the stream in which the window starts at `by`.
fn moved(refusal: Refusal, by: u64) -> Refusal
    requires { PlaceInside longest_slice refusal × (by ≤ longest_slice) }
    ensures { result ≡ moved by refusal }
{
    let why = refusal.why;
    let line = why.line();
    if !line.moves {
        return refusal;
    }
    Refusal {
        why,
        place: refusal.place + by,
    }
}

// The run over the stream so far, and then on over the next window, which starts where the rows so far end.
pub fn run_on(settings: Settings, before: Ran, format: &Format, window: &[u8]) -> Ran
    requires { Counted before (length window.now) }
    ensures value { result ≡ added before (ran_of (run_rule format.now settings window.now)) }
    ensures further { Further before result (length window.now) }
{
    let ran = run(settings, format, window);
    let rows = before.rows + ran.rows;
    let bytes = before.bytes + ran.bytes;
    let stop = ran.stop;
    match stop {
        Ok(()) => Ran {
            rows,
            bytes,
            stop: Ok(()),
        },
        Err(why) => Ran {
            rows,
            bytes,
            stop: Err(moved(why, before.bytes)),
        },
    }
}

// A run that has accepted no row.
pub fn no_rows(stop: Result<(), Refusal>) -> Ran
    ensures value { result ≡ record { rows = 0; bytes = 0; stop = stop } }
    ensures rows_value { (result.rows ≡ 0) × (result.bytes ≡ 0) }
{
    Ran {
        rows: 0,
        bytes: 0,
        stop,
    }
}

// The run over a stream of which so many rows and bytes were accepted, and whose bytes after them are the window.
pub fn run_after(settings: Settings, rows: u64, bytes: u64, format: &Format, window: &[u8]) -> Ran
    ensures { result ≡ run_after format.now settings rows bytes window.now }
{
    if bytes < rows {
        return no_rows(Err(Refusal::SETTING));
    }
    let longest = LONGEST as u64;
    if longest < bytes {
        return no_rows(Err(Refusal::SETTING));
    }
    if longest - bytes < window.len() as u64 {
        return no_rows(Err(Refusal::SETTING));
    }
    let before = Ran {
        rows,
        bytes,
        stop: Ok(()),
    };
    run_on(settings, before, format, window)
}
