// A row of a stream: the door that every call goes through, the steps behind it, and skip.
#![tactic(auto)]

ghost use Rattle.std.specs.Prelude.{◌≡◌};
ghost use Rattle.rules.specs.Reading.{skip_rule};

pub mod door;
pub mod steps;

use door::door;
use rules::{Door, Extent, Format, Refusal, Settings};
use steps::row_at;

// The row at a position of the stream: what it takes, the end of the stream, or why it is refused.
pub fn skip_row(
    settings: Settings,
    format: &Format,
    input: &[u8],
    position: u64,
) -> Result<Option<Extent>, Refusal>
    ensures { result ≡ skip_rule format.now settings input.now position }
{
    let entry = door(settings, format, input, position)?;
    match entry {
        Door::Open => {
            let row = row_at(format, input, position as usize, settings)?;
            Ok(Some(row))
        }
        Door::End => Ok(None),
    }
}
