// The run over a stream as it is read.
ghost use Rattle.std.specs.Prelude.{length};
ghost use Rattle.windows.specs.Bounds.{Laid};
ghost use Rattle.windows.specs.Steps.{format_in};
ghost use Rattle.deliveries.specs.Outcomes.{Answers};

use reads::filling::read_full;
use reads::{RunFailure, outcome_of_last_read};
use rules::{LONGEST, Ran, Refusal, Settings};
use std::io::Read;
use windows::no_rows;
use windows::space::{Ends, run_filled_window, run_window};

// What one more read answers: 0 at the end of the file, 1 where there is more, or less than 0.
pub fn read_one_more<R: Read>(file: &mut R) -> isize {
    let mut one = [0u8; 1];
    let got = file.read(&mut one);
    match got {
        Ok(n) => n as isize,
        Err(_) => -1,
    }
}

// Runs over the stream, in the window behind the tables. What stands is always the run over the bytes read so far.
pub fn run_stream<R: Read>(
    settings: Settings,
    stream: &mut R,
    space: &mut [u8],
    ends: Ends,
) -> Result<Ran, RunFailure>
    requires { Laid ends ends.registry (length space.old) }
    ensures { Answers (format_in space.old ends) settings ends space.new result }
{
    let w = ends.registry;
    let mut ran = run_window(settings, no_rows(Ok(())), space, ends, w);
    // Counted by hand: the end moves by what was read, and back by what the window has done with.
    let mut end = w;
    let mut read: u64 = 0;
    while end < space.len() {
        let got = read_full(stream, &mut space[end..]);
        if got == 0 {
            return outcome_of_last_read(read_one_more(stream), ran, false);
        }
        read += got as u64;
        if (LONGEST as u64) < read {
            return Ok(no_rows(Err(Refusal::SETTING)));
        }
        let reading = run_filled_window(settings, ran, space, ends, end + got);
        ran = reading.ran;
        end = reading.end;
    }
    outcome_of_last_read(read_one_more(stream), ran, true)
}
