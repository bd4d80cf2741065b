// A row of a stream by its number: the index says where it begins, and decode's steps read it there. The row's table and length are held
// to its record between judging and room, so that a record which leads elsewhere is refused before anything is written.
#![tactic(auto)]

ghost use Rattle.std.specs.Prelude.{◌≡◌, ◌≤◌, length, Ok, Some};
ghost use Rattle.rules.specs.Reading.{limits};
ghost use Rattle.rules.specs.Index.{is_that_row, row_of_record, indexed_row_rule};
ghost use Rattle.row.specs.Steps.{ThroughDoor};

use decode::steps::{fill_at, room_for};
use record::index_record::{index_record_at, index_records_in};
use row::door::door;
use row::steps::{block_at, row_of};
use rules::{Door, Extent, Format, LONGEST, Refusal, RowSpan, Settings};

// A judged row is that of a record: of its table and its length.
fn is_that_row(row: Extent, indexed: RowSpan) -> bool
    ensures { result ≡ is_that_row indexed (Ok (Some row)) }
{
    if row.table != indexed.table {
        return false;
    }
    row.bytes == indexed.size
}

// The row at a record's offset, judged, held to the record, given room, filled in.
pub fn decode_record(
    format: &Format,
    input: &[u8],
    indexed: RowSpan,
    settings: Settings,
    records: &mut [u8],
    payload: &mut [u8],
) -> Result<Option<Extent>, Refusal>
    requires { ThroughDoor format.now input.now settings × (indexed.offset ≤ length input.now) }
    ensures { record { answer = result; records = records.new; payload = payload.new }
        ≡ row_of_record format.now input.now (limits settings)
        records.old payload.old indexed }
{
    let at = indexed.offset as usize;
    let found = block_at(format, input, at)?;
    let row = row_of(format.table, input, at, found, settings)?;
    if !is_that_row(row, indexed) {
        return Err(Refusal::INDEX_MISMATCH);
    }
    room_for(row, at, records.len(), payload.len())?;
    fill_at(
        format.table,
        input,
        at,
        found.first,
        found.count,
        records,
        payload,
    );
    Ok(Some(row))
}

// Row n of the stream, as decode has it where record n of the index says that it begins; or why it is refused, and then both slices are as
// they were. Of the index record n alone is looked at.
pub fn decode_indexed(
    settings: Settings,
    format: &Format,
    input: &[u8],
    index: &[u8],
    row: u64,
    records: &mut [u8],
    payload: &mut [u8],
) -> Result<Option<Extent>, Refusal>
    ensures { record { answer = result; records = records.new; payload = payload.new }
        ≡ indexed_row_rule format.now settings input.now index.now row records.old payload.old }
{
    if LONGEST < index.len() {
        return Err(Refusal::SETTING);
    }
    door(settings, format, input, 0)?;
    if index_records_in(index.len() as u64) <= row {
        return Err(Refusal::NO_SUCH_ROW);
    }
    let indexed = index_record_at(index, row as usize);
    if input.len() as u64 <= indexed.offset {
        return Err(Refusal::INDEX_MISMATCH);
    }
    decode_record(format, input, indexed, settings, records, payload)
}
