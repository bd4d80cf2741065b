// Value records: how many bytes one has, how one is read and how one is written. No other line of code knows it.
ghost use Rattle.std.specs.Prelude.{◌≡◌, length};
ghost use Rattle.rules.specs.Bytes.{over};
ghost use Rattle.rules.specs.ValueRecord.{value_record_start, value_records_in, whole_value_records, ValueRecordIn, value_record, layout, value_record_at};

use rules::ValueRecord;
use wire::store::{put16, put32, put64};
use wire::{u16_at, u32_at, u64_at, wide};

// The bytes of a value record.
const VALUE_RECORD_SIZE: usize = 16;

// How many whole records so many bytes hold.
pub fn records_in(bytes: u64) -> u64
    ensures { result ≡ value_records_in bytes }
{
    bytes / VALUE_RECORD_SIZE as u64
}

// Whether so many bytes are whole records.
pub fn whole_records(bytes: u64) -> bool
    ensures { result ≡ whole_value_records bytes }
{
    bytes % VALUE_RECORD_SIZE as u64 == 0
}

// Record i.
pub fn value_record_at(records: &[u8], i: usize) -> ValueRecord
    requires { ValueRecordIn i (length records.now) }
    ensures { result ≡ value_record_at records.now i }
{
    let at = i * VALUE_RECORD_SIZE;
    ValueRecord {
        kind: records[at],
        spare: records[at + 1],
        tag: u16_at(records, at + 2),
        size: u32_at(records, at + 4),
        content: u64_at(records, at + 8),
    }
}

// Writes record i. `size` is a child count or a payload length, `content` a payload's start or a scalar's wire bytes.
pub fn put_record(records: &mut [u8], i: usize, kind: u8, tag: u64, size: u64, content: u64)
    requires { ValueRecordIn i (length records.old) }
    ensures { records.new ≡ over records.old (value_record_start i) (layout (value_record kind tag size content)) }
{
    let at = i * VALUE_RECORD_SIZE;
    // the kind, and the zero above it
    put16(records, at, wide(kind));
    put16(records, at + 2, tag);
    put32(records, at + 4, size);
    put64(records, at + 8, content);
}
