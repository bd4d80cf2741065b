// Rows of a checked format, step by step: behind the door.
ghost use Rattle.std.specs.Prelude.{◌≡◌, [], ◌≤◌, length, Err};
ghost use Rattle.rules.specs.Reading.{limits, row_at, skipped};
ghost use Rattle.schema.specs.Slices.{EntriesNamed, ReferencesNamed};
ghost use Rattle.row.specs.Steps.{a_row, ThroughDoor, Walkable, row_block_at, row_in};

use block::table::block_of;
use leaves::fields::read_table;
use read::walk::skip_root;
use rules::{Extent, Format, Located, Refusal, Settings, Why};
use schema::format::table_schema;

// The block by which a row is read: its table, and the block's first record and count.
#[derive(Clone, Copy)]
pub struct RowBlock {
    pub tag: u64,
    pub first: u64,
    pub count: u64,
}

// The block of the table whose tag stands at a position. (A checked format has no reference that its registry lacks.)
pub fn block_at(format: &Format, input: &[u8], at: usize) -> Result<RowBlock, Refusal>
    requires { EntriesNamed format.now.names format.now.registry × ReferencesNamed format.now.names format.now.references × (at ≤ length input.now) }
    ensures { result ≡ row_block_at format.now input.now at }
{
    let (tag, _) = read_table(input, at)?;
    let found = table_schema(format, tag);
    match found {
        Located::Block(first, count) => Ok(RowBlock { tag, first, count }),
        Located::NoTable => Err(Refusal {
            why: Why::MissingTableSchema { index: tag },
            place: at as u64,
        }),
        Located::NoEntry => Err(Refusal {
            why: Why::UnknownRegistryReference { table: tag },
            place: tag,
        }),
    }
}

// The row at a position, whose table tag was read: the value of the root of its table's block.
pub fn row_of(
    table: &[u8],
    input: &[u8],
    at: usize,
    found: RowBlock,
    settings: Settings,
) -> Result<Extent, Refusal>
    requires { Walkable table.now input.now at found.first found.count settings }
    ensures { a_row result ≡ row_in table.now input.now (limits settings) at found.tag found.first found.count }
{
    let block = block_of(table, found.first, found.count);
    let q = skip_root(block, input, at + 2, settings)?;
    Ok(Extent {
        table: found.tag,
        bytes: (q.at - at) as u64,
        records: q.records,
        payload: q.payload,
    })
}

// The row at a position: its table's block, and the root's value.
pub fn row_at(
    format: &Format,
    input: &[u8],
    at: usize,
    settings: Settings,
) -> Result<Extent, Refusal>
    requires { ThroughDoor format.now input.now settings × (at ≤ length input.now) }
    ensures { a_row result ≡ skipped at (row_at format.now input.now (limits settings) at) }
{
    let found = block_at(format, input, at)?;
    row_of(format.table, input, at, found, settings)
}
