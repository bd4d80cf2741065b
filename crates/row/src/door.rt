// The door: settings, slices, position, format and end are judged here, once in each call, and nowhere else.
ghost use Rattle.std.specs.Prelude.{◌≡◌};
ghost use Rattle.rules.specs.Reading.{bounds_ok, door};

use rules::{Door, Format, LONGEST, Refusal, Settings};
use schema::format_rules;

// Settings and slices are inside document 01's bounds.
pub fn within_bounds(settings: Settings, format: &Format, input: &[u8]) -> bool
    ensures { result ≡ bounds_ok settings format.now input.now }
{
    if !settings.within_bounds() {
        return false;
    }
    if LONGEST < format.table.len() {
        return false;
    }
    if LONGEST < format.names.len() {
        return false;
    }
    if LONGEST < format.references.len() {
        return false;
    }
    if LONGEST < format.registry.len() {
        return false;
    }
    input.len() <= LONGEST
}

// Whether a row may be read at a position: what a call is given and the position first, then the format, then the stream's end.
pub fn door(
    settings: Settings,
    format: &Format,
    input: &[u8],
    position: u64,
) -> Result<Door, Refusal>
    ensures { result ≡ door format.now settings input.now position }
{
    if !within_bounds(settings, format, input) {
        return Err(Refusal::SETTING);
    }
    let end = input.len() as u64;
    if end < position {
        return Err(Refusal::SETTING);
    }
    format_rules(format)?;
    if position == end {
        return Ok(Door::End);
    }
    Ok(Door::Open)
}
