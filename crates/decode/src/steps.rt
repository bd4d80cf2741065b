// A row of a checked format: its table's block is found and the row judged by the steps that skip takes, given room, filled in. Each
// step has a contract of its own, so that a caller may put a test between them.
ghost use Rattle.std.specs.Prelude.{◌≡◌, ◌+◌, ◌≤◌, min, length};
ghost use Rattle.rules.specs.Bytes.{over, longest_slice};
ghost use Rattle.rules.specs.Block.{block};
ghost use Rattle.rules.specs.ValueTable.{flat, payload_bytes};
ghost use Rattle.rules.specs.Reading.{limits, row_at, room_for, filled};
ghost use Rattle.row.specs.Steps.{ThroughDoor};
ghost use Rattle.fill.specs.Filling.{row_value};
ghost use Rattle.decode.specs.Steps.{given_room, Granted};

use block::table::block_of;
use fill::fill_row;
use record::value_record::records_in;
use row::steps::{block_at, row_of};
use rules::{Extent, Format, Refusal, Settings, Why, room_in};

// Room for a judged row's records, then for its payload bytes, in slices of these lengths; each refusal has the whole row's need.
pub fn room_for(row: Extent, at: usize, records: usize, payload: usize) -> Result<(), Refusal>
    ensures { given_room row result ≡ room_for at (min records longest_slice) (min payload longest_slice) row }
{
    if records_in(room_in(records)) < row.records {
        return Err(Refusal {
            why: Why::NoNodeRoom {
                needed: row.records,
            },
            place: at as u64,
        });
    }
    if room_in(payload) < row.payload {
        return Err(Refusal {
            why: Why::NoPayloadRoom {
                needed: row.payload,
            },
            place: at as u64,
        });
    }
    Ok(())
}

// A row that was judged and has room: the value of the root of its table's block, from the start of each slice.
pub fn fill_at(
    table: &[u8],
    input: &[u8],
    at: usize,
    first: u64,
    count: u64,
    records: &mut [u8],
    payload: &mut [u8],
)
    requires { Granted table.now input.now at first count (length records.old) (length payload.old) }
    ensures records { records.new ≡ over records.old 0
        (flat (row_value (block table.now first count) input.now (at + 2)) 0 0) }
    ensures payload { payload.new ≡ over payload.old 0
        (payload_bytes (row_value (block table.now first count) input.now (at + 2))) }
{
    fill_row(
        block_of(table, first, count),
        input,
        at + 2,
        records,
        payload,
    );
}

// The row at a position, judged, given room, filled in.
pub fn decode_row(
    format: &Format,
    input: &[u8],
    at: usize,
    settings: Settings,
    records: &mut [u8],
    payload: &mut [u8],
) -> Result<Option<Extent>, Refusal>
    requires { ThroughDoor format.now input.now settings × (at ≤ length input.now) }
    ensures { record { answer = result; records = records.new; payload = payload.new }
        ≡ filled at (row_at format.now input.now (limits settings) at)
        records.old payload.old }
{
    let found = block_at(format, input, at)?;
    let row = row_of(format.table, input, at, found, settings)?;
    room_for(row, at, records.len(), payload.len())?;
    fill_at(
        format.table,
        input,
        at,
        found.first,
        found.count,
        records,
        payload,
    );
    Ok(Some(row))
}
