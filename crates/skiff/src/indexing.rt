// The calls of an index: built, checked, extended, and a row by its number.
ghost use Rattle.std.specs.Prelude.{◌≡◌};
ghost use Rattle.schema.specs.Slices.{slices};
ghost use Rattle.skiff.specs.Calls.{settings_of, build_index_given, check_index_given, extend_index_given, decode_indexed_given};

use super::ANSWER;
use answers::{answer_of_ran, answer_of_read, give};
use index::{build_index, check_index, extend_index};
use indexed_row::decode_indexed;
use rules::{Format, Settings};

// The index of all rows.
pub fn skiff2_build_index(
    node_charge: u64,
    max_string32_bytes: u64,
    max_yson32_bytes: u64,
    max_row_bytes: u64,
    table: &[u8],
    names: &[u8],
    references: &[u8],
    registry: &[u8],
    input: &[u8],
    index: &mut [u8],
    answer: &mut [u8],
) -> u32
    ensures { record { number = result; answer = answer.new; lent = index.new }
        ≡ build_index_given (slices table.now names.now references.now registry.now)
        (settings_of node_charge max_string32_bytes max_yson32_bytes max_row_bytes) input.now
        index.old answer.old }
{
    if answer.len() < ANSWER {
        return 1;
    }
    let settings = Settings {
        node_charge,
        max_string32_bytes,
        max_yson32_bytes,
        max_row_bytes,
    };
    let format = Format {
        table,
        names,
        references,
        registry,
    };
    let ran = build_index(settings, &format, input, index);
    let stop = ran.stop;
    give(answer, answer_of_ran(ran.rows, ran.bytes, stop))
}

// Whether a slice is the index of all rows.
pub fn skiff2_check_index(
    node_charge: u64,
    max_string32_bytes: u64,
    max_yson32_bytes: u64,
    max_row_bytes: u64,
    table: &[u8],
    names: &[u8],
    references: &[u8],
    registry: &[u8],
    input: &[u8],
    index: &[u8],
    answer: &mut [u8],
) -> u32
    ensures { record { number = result; answer = answer.new }
        ≡ check_index_given (slices table.now names.now references.now registry.now)
        (settings_of node_charge max_string32_bytes max_yson32_bytes max_row_bytes) input.now
        index.now answer.old }
{
    if answer.len() < ANSWER {
        return 1;
    }
    let settings = Settings {
        node_charge,
        max_string32_bytes,
        max_yson32_bytes,
        max_row_bytes,
    };
    let format = Format {
        table,
        names,
        references,
        registry,
    };
    let ran = check_index(settings, &format, input, index);
    let stop = ran.stop;
    give(answer, answer_of_ran(ran.rows, ran.bytes, stop))
}

// The index of all rows, of which the first `old` have their records already.
pub fn skiff2_extend_index(
    node_charge: u64,
    max_string32_bytes: u64,
    max_yson32_bytes: u64,
    max_row_bytes: u64,
    table: &[u8],
    names: &[u8],
    references: &[u8],
    registry: &[u8],
    input: &[u8],
    old: u64,
    index: &mut [u8],
    answer: &mut [u8],
) -> u32
    ensures { record { number = result; answer = answer.new; lent = index.new }
        ≡ extend_index_given (slices table.now names.now references.now registry.now)
        (settings_of node_charge max_string32_bytes max_yson32_bytes max_row_bytes) input.now
        old index.old answer.old }
{
    if answer.len() < ANSWER {
        return 1;
    }
    let settings = Settings {
        node_charge,
        max_string32_bytes,
        max_yson32_bytes,
        max_row_bytes,
    };
    let format = Format {
        table,
        names,
        references,
        registry,
    };
    let ran = extend_index(settings, &format, input, old, index);
    let stop = ran.stop;
    give(answer, answer_of_ran(ran.rows, ran.bytes, stop))
}

// A row by its number, as value records and payload bytes in two slices of the host's.
pub fn skiff2_decode_indexed(
    node_charge: u64,
    max_string32_bytes: u64,
    max_yson32_bytes: u64,
    max_row_bytes: u64,
    table: &[u8],
    names: &[u8],
    references: &[u8],
    registry: &[u8],
    input: &[u8],
    index: &[u8],
    row: u64,
    records: &mut [u8],
    payload: &mut [u8],
    answer: &mut [u8],
) -> u32
    ensures { record { number = result; answer = answer.new; records = records.new; payload = payload.new }
        ≡ decode_indexed_given (slices table.now names.now references.now registry.now)
        (settings_of node_charge max_string32_bytes max_yson32_bytes max_row_bytes) input.now index.now row
        answer.old records.old payload.old }
{
    if answer.len() < ANSWER {
        return 1;
    }
    let settings = Settings {
        node_charge,
        max_string32_bytes,
        max_yson32_bytes,
        max_row_bytes,
    };
    let format = Format {
        table,
        names,
        references,
        registry,
    };
    let read = decode_indexed(settings, &format, input, index, row, records, payload);
    give(answer, answer_of_read(read))
}
