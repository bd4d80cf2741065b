// The second pass over a stream whose run was not refused: its rows' records, compared with those that stand in an index, or written.
ghost use Rattle.std.specs.Prelude.{◌≡◌, length, drop};
ghost use Rattle.rules.specs.Bytes.{over};
ghost use Rattle.rules.specs.Reading.{run_rule};
ghost use Rattle.rules.specs.Index.{index_record_start, index_of};
ghost use Rattle.index.specs.Passes.{Comparable, compared_with, same_span, Writable};

use record::index_record::{index_record_at, put_index_record};
use row::steps::row_at;
use rules::{Extent, Format, RowSpan, Settings};

// A record is that of the row that was read at a position.
fn same_span(indexed: RowSpan, at: usize, row: Extent) -> bool
    ensures { result ≡ same_span indexed (record { offset = at; size = row.bytes; table = row.table }) }
{
    indexed.offset == at as u64 && indexed.size == row.bytes && indexed.table == row.table
}

// The index's first `count` records, by the stream's first rows.
pub fn compare_records(
    format: &Format,
    input: &[u8],
    settings: Settings,
    index: &[u8],
    count: usize,
) -> Option<usize>
    requires { Comparable format.now settings input.now count (length index.now) }
    ensures { result ≡ compared_with (run_rule format.now settings input.now).rows count index.now }
{
    let mut at: usize = 0;
    for i in 0..count {
        let read = row_at(format, input, at, settings);
        let Ok(row) = read else {
            return None;
        };
        if !same_span(index_record_at(index, i), at, row) {
            return None;
        }
        at += row.bytes as usize;
    }
    Some(at)
}

// The records of the rows from row `first` on, which begins at `start`.
pub fn put_records(
    format: &Format,
    input: &[u8],
    settings: Settings,
    index: &mut [u8],
    first: usize,
    start: usize,
)
    requires { Writable format.now settings input.now first start (length index.old) }
    ensures { index.new ≡ over index.old (index_record_start first) (index_of (drop first (run_rule format.now settings input.now).rows)) }
{
    let mut at: usize = start;
    // Counted by hand: the input's end ends it, and not a count of rows.
    let mut i: usize = first;
    while at < input.len() {
        let read = row_at(format, input, at, settings);
        let Ok(row) = read else {
            return;
        };
        put_index_record(
            index,
            i,
            RowSpan {
                offset: at as u64,
                size: row.bytes,
                table: row.table,
            },
        );
        at += row.bytes as usize;
        i += 1;
    }
}
