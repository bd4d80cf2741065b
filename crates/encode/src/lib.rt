// Encode: what the call is given (1), the schema, the value table's form, and only then the row, judged, given room, written.
#![tactic(auto)]

ghost use Rattle.std.specs.Prelude.{◌≡◌, ◌≤◌, min, length};
ghost use Rattle.rules.specs.Bytes.{longest_slice};
ghost use Rattle.rules.specs.ValueTable.{table_value};
ghost use Rattle.rules.specs.Reading.{limits};
ghost use Rattle.rules.specs.Writing.{encode_value, encode_ok, encode_rule};
ghost use Rattle.judge.specs.Flat.{RowFlat};

use block::table::block_of;
use judge::flat::flat_row;
use rules::{Extent, LONGEST, Refusal, Settings};
use schema::encoder_rules_at_once;
use value::table_form;
use write::steps::{place_flat_row, write_row};

// Settings and slices are inside document 01's bounds, and the position in what counts of the output.
fn writing_within_bounds(
    settings: Settings,
    table: &[u8],
    names: &[u8],
    records: &[u8],
    payload: &[u8],
    output: &[u8],
    position: u64,
) -> bool
    ensures { result ≡ encode_ok settings table.now names.now records.now payload.now
        output.now position }
{
    if !settings.within_bounds() {
        return false;
    }
    if LONGEST < table.len() {
        return false;
    }
    if LONGEST < names.len() {
        return false;
    }
    if LONGEST < records.len() {
        return false;
    }
    if LONGEST < payload.len() {
        return false;
    }
    if (LONGEST as u64) < position {
        return false;
    }
    position <= output.len() as u64
}

// The value of a value table by a checked block: at once where the row is flat, else the form of the table first, and then the row.
fn encode_by(
    block: &[u8],
    settings: Settings,
    records: &[u8],
    payload: &[u8],
    output: &mut [u8],
    at: usize,
) -> Result<Extent, Refusal>
    requires { RowFlat block.now records.now payload.now × (at ≤ min (length output.old) longest_slice) }
    ensures { record { answer = result; output = output.new } ≡ encode_value block.now (limits settings)
        (table_value records.now payload.now) output.old at }
{
    let now = flat_row(block, settings, records, payload);
    if let Some(p) = now {
        return place_flat_row(block, settings, p, records, payload, output, at);
    }
    table_form(records, payload)?;
    write_row(block, settings, records, payload, output, at)
}

// The value of a value table, written as a row of the block's schema from a position of the output on; or why it is refused, and
// then the output is as it was.
pub fn encode(
    settings: Settings,
    table: &[u8],
    names: &[u8],
    first: u64,
    count: u64,
    records: &[u8],
    payload: &[u8],
    output: &mut [u8],
    position: u64,
) -> Result<Extent, Refusal>
    ensures { record { answer = result; output = output.new } ≡ encode_rule settings table.now names.now first count
        records.now payload.now output.old position }
{
    if !writing_within_bounds(settings, table, names, records, payload, output, position) {
        return Err(Refusal::SETTING);
    }
    encoder_rules_at_once(table, names, first, count)?;
    encode_by(
        block_of(table, first, count),
        settings,
        records,
        payload,
        output,
        position as usize,
    )
}
