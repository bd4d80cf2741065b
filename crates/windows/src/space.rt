// A space that holds the four tables, one behind the other, and behind them a window of the stream.
ghost use Rattle.std.specs.Prelude.{◌+◌, ◌-◌, ◌≤◌, ◌≡◌, length};
ghost use Rattle.rules.specs.Choice.{pick};
ghost use Rattle.rules.specs.Bytes.{part, over};
ghost use Rattle.rules.specs.Reading.{run_rule, ran_of};
ghost use Rattle.rules.specs.Windows.{goes_on, added};
ghost use Rattle.windows.specs.Bounds.{Laid, Counted, Further};
ghost use Rattle.windows.specs.Steps.{cut, format_in, GoesOver};

use crate::{goes_on, run_on};
use rules::{Format, Ran, Refusal, Settings};

// Where each table ends in the space.
#[derive(Clone, Copy)]
pub struct Ends {
    pub records: usize,
    pub names: usize,
    pub references: usize,
    pub registry: usize,
}

// Moves n bytes of the space from one position to another that is not behind it.
fn move_bytes(space: &mut [u8], from: usize, to: usize, n: usize)
    requires { (to ≤ from) × (from + n ≤ length space.old) }
    ensures { space.new ≡ over space.old to (part space.old from n) }
{
    space.copy_within(from..from + n, to);
}

// The run over the space's window, which ends at `end`.
pub fn run_window(settings: Settings, before: Ran, space: &[u8], ends: Ends, end: usize) -> Ran
    requires { Laid ends end (length space.now) × Counted before (end - ends.registry) }
    ensures value { result ≡ added before (ran_of (run_rule (format_in space.now ends) settings
        (cut space.now ends.registry end))) }
    ensures further { Further before result (end - ends.registry) }
{
    let x = ends.records;
    let y = ends.names;
    let z = ends.references;
    let w = ends.registry;
    run_on(
        settings,
        before,
        &Format {
            table: &space[0..x],
            names: &space[x..y],
            references: &space[y..z],
            registry: &space[z..w],
        },
        &space[w..end],
    )
}

// How many bytes of a window, from a position on, may still become rows.
fn bytes_to_keep(stop: Result<(), Refusal>, from: usize, end: usize) -> usize
    requires { from ≤ end }
    ensures { (result ≡ pick (goes_on stop) (end - from) 0) × (from + result ≤ end) }
{
    if goes_on(stop) { end - from } else { 0 }
}

// The run so far, and where the bytes of the window end that it has still to run over.
#[derive(Clone, Copy)]
pub struct WindowRun {
    pub ran: Ran,
    pub end: usize,
}

// Goes on over a window that was filled, and brings to its front what may still become a row.
pub fn run_filled_window(
    settings: Settings,
    ran: Ran,
    space: &mut [u8],
    ends: Ends,
    end: usize,
) -> WindowRun
    requires { Laid ends end (length space.old) × Counted ran (end - ends.registry) }
    ensures goes_over { GoesOver (format_in space.old ends) settings ran (cut space.old ends.registry end)
        result.ran (cut space.new ends.registry result.end) }
    ensures ends_unchanged { format_in space.new ends ≡ format_in space.old ends }
    ensures registry_le_end { (ends.registry ≤ result.end) × (result.end ≤ end) × (result.ran.rows ≤ result.ran.bytes)
        × (result.ran.bytes + (result.end - ends.registry) ≤ ran.bytes + (end - ends.registry)) }
{
    let w = ends.registry;
    let stop = ran.stop;
    if !goes_on(stop) {
        return WindowRun { ran, end: w };
    }
    let next = run_window(settings, ran, space, ends, end);
    let from = w + (next.bytes - ran.bytes) as usize;
    let stop = next.stop;
    let n = bytes_to_keep(stop, from, end);
    move_bytes(space, from, w, n);
    let kept = w + n;
    WindowRun {
        ran: next,
        end: kept,
    }
}
