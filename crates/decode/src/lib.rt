// Decode: the row at a position is judged, the room in both slices is tested, and only then is anything written.
#![tactic(auto)]

ghost use Rattle.std.specs.Prelude.{◌≡◌};
ghost use Rattle.rules.specs.Reading.{decode_rule};

pub mod steps;

use row::door::door;
use rules::{Door, Extent, Format, Refusal, Settings};
use steps::decode_row;

// The row at a position of the stream, as value records and payload bytes from the start of each slice; the end of the
// stream; or why it is refused, and then both slices are as they were.
pub fn next_row(
    settings: Settings,
    format: &Format,
    input: &[u8],
    position: u64,
    records: &mut [u8],
    payload: &mut [u8],
) -> Result<Option<Extent>, Refusal>
    ensures { record { answer = result; records = records.new; payload = payload.new }
        ≡ decode_rule format.now settings input.now position records.old payload.old }
{
    let entry = door(settings, format, input, position)?;
    match entry {
        Door::Open => decode_row(format, input, position as usize, settings, records, payload),
        Door::End => Ok(None),
    }
}
