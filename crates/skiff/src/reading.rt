// The calls that read: skip, run and decode.
ghost use Rattle.std.specs.Prelude.{◌≡◌};
ghost use Rattle.schema.specs.Slices.{slices};
ghost use Rattle.skiff.specs.Calls.{settings_of, skip_given, run_given, decode_given};

use super::ANSWER;
use answers::{answer_of_ran, answer_of_read, give};
use rules::{Format, Settings};

// The row at a position.
pub fn skiff2_skip(
    node_charge: u64,
    max_string32_bytes: u64,
    max_yson32_bytes: u64,
    max_row_bytes: u64,
    table: &[u8],
    names: &[u8],
    references: &[u8],
    registry: &[u8],
    input: &[u8],
    position: u64,
    answer: &mut [u8],
) -> u32
    ensures { record { number = result; answer = answer.new }
        ≡ skip_given (slices table.now names.now references.now registry.now)
        (settings_of node_charge max_string32_bytes max_yson32_bytes max_row_bytes) input.now position answer.old }
{
    if answer.len() < ANSWER {
        return 1;
    }
    let settings = Settings {
        node_charge,
        max_string32_bytes,
        max_yson32_bytes,
        max_row_bytes,
    };
    let format = Format {
        table,
        names,
        references,
        registry,
    };
    let read = row::skip_row(settings, &format, input, position);
    give(answer, answer_of_read(read))
}

// All rows from the start on.
pub fn skiff2_run(
    node_charge: u64,
    max_string32_bytes: u64,
    max_yson32_bytes: u64,
    max_row_bytes: u64,
    table: &[u8],
    names: &[u8],
    references: &[u8],
    registry: &[u8],
    input: &[u8],
    answer: &mut [u8],
) -> u32
    ensures { record { number = result; answer = answer.new }
        ≡ run_given (slices table.now names.now references.now registry.now)
        (settings_of node_charge max_string32_bytes max_yson32_bytes max_row_bytes) input.now answer.old }
{
    if answer.len() < ANSWER {
        return 1;
    }
    let settings = Settings {
        node_charge,
        max_string32_bytes,
        max_yson32_bytes,
        max_row_bytes,
    };
    let format = Format {
        table,
        names,
        references,
        registry,
    };
    let ran = run::run(settings, &format, input);
    let stop = ran.stop;
    give(answer, answer_of_ran(ran.rows, ran.bytes, stop))
}

// The row at a position, as value records and payload bytes in two slices of the host's.
pub fn skiff2_decode(
    node_charge: u64,
    max_string32_bytes: u64,
    max_yson32_bytes: u64,
    max_row_bytes: u64,
    table: &[u8],
    names: &[u8],
    references: &[u8],
    registry: &[u8],
    input: &[u8],
    position: u64,
    records: &mut [u8],
    payload: &mut [u8],
    answer: &mut [u8],
) -> u32
    ensures { record { number = result; answer = answer.new; records = records.new; payload = payload.new }
        ≡ decode_given (slices table.now names.now references.now registry.now)
        (settings_of node_charge max_string32_bytes max_yson32_bytes max_row_bytes) input.now position answer.old
        records.old payload.old }
{
    if answer.len() < ANSWER {
        return 1;
    }
    let settings = Settings {
        node_charge,
        max_string32_bytes,
        max_yson32_bytes,
        max_row_bytes,
    };
    let format = Format {
        table,
        names,
        references,
        registry,
    };
    let read = decode::next_row(settings, &format, input, position, records, payload);
    give(answer, answer_of_read(read))
}
