// Index records: how many bytes one has, how one is read and how one is written. No other line of code knows it.
ghost use Rattle.std.specs.Prelude.{◌≡◌, eqb, length};
ghost use Rattle.rules.specs.Bytes.{over};
ghost use Rattle.rules.specs.Index.{index_record_start, index_records_in, IndexRecordIn, index_record, indexed_at};

use rules::RowSpan;
use wire::store::{put32, put64};
use wire::{u32_at, u64_at};

// The bytes of an index record.
const INDEX_RECORD_SIZE: usize = 16;

// How many whole records so many bytes hold.
pub fn index_records_in(bytes: u64) -> u64
    ensures { result ≡ index_records_in bytes }
{
    bytes / INDEX_RECORD_SIZE as u64
}

// Whether so many bytes are just so many records.
pub fn are_index_records(bytes: usize, records: u64) -> bool
    ensures { result ≡ eqb bytes (index_record_start records) }
{
    if (bytes / INDEX_RECORD_SIZE) as u64 != records {
        return false;
    }
    bytes % INDEX_RECORD_SIZE == 0
}

// Record i.
pub fn index_record_at(index: &[u8], i: usize) -> RowSpan
    requires { IndexRecordIn i (length index.now) }
    ensures { result ≡ indexed_at index.now i }
{
    let at = i * INDEX_RECORD_SIZE;
    RowSpan {
        offset: u64_at(index, at),
        size: u32_at(index, at + 8),
        table: u32_at(index, at + 12),
    }
}

// Writes record i.
pub fn put_index_record(index: &mut [u8], i: usize, row: RowSpan)
    requires { IndexRecordIn i (length index.old) }
    ensures { index.new ≡ over index.old (index_record_start i) (index_record row) }
{
    let at = i * INDEX_RECORD_SIZE;
    put64(index, at, row.offset);
    put32(index, at + 8, row.size);
    put32(index, at + 12, row.table);
}
