// The calls that read: skip, run and decode.
ghost use Rattle.std.specs.Prelude.{◌≡◌};
ghost use Rattle.schema.specs.Slices.{slices};
ghost use Rattle.skiff.specs.Calls.{settings_of, skip_given, run_given, decode_given};

// The row at a position.
#[unsafe(no_mangle)]
pub extern "C" fn skiff2_skip(
    node_charge: u64,
    max_string32_bytes: u64,
    max_yson32_bytes: u64,
    max_row_bytes: u64,
    table: &[u8],
    names: &[u8],
    references: &[u8],
    registry: &[u8],
    input: &[u8],
    position: u64,
    answer: &mut [u8],
) -> u32
    ensures { record { number = result; answer = answer.new }
        ≡ skip_given (slices table.now names.now references.now registry.now)
        (settings_of node_charge max_string32_bytes max_yson32_bytes max_row_bytes) input.now position answer.old }
{
    skiff::reading::skiff2_skip(
        node_charge,
        max_string32_bytes,
        max_yson32_bytes,
        max_row_bytes,
        table,
        names,
        references,
        registry,
        input,
        position,
        answer,
    )
}

// All rows from the start on.
#[unsafe(no_mangle)]
pub extern "C" fn skiff2_run(
    node_charge: u64,
    max_string32_bytes: u64,
    max_yson32_bytes: u64,
    max_row_bytes: u64,
    table: &[u8],
    names: &[u8],
    references: &[u8],
    registry: &[u8],
    input: &[u8],
    answer: &mut [u8],
) -> u32
    ensures { record { number = result; answer = answer.new }
        ≡ run_given (slices table.now names.now references.now registry.now)
        (settings_of node_charge max_string32_bytes max_yson32_bytes max_row_bytes) input.now answer.old }
{
    skiff::reading::skiff2_run(
        node_charge,
        max_string32_bytes,
        max_yson32_bytes,
        max_row_bytes,
        table,
        names,
        references,
        registry,
        input,
        answer,
    )
}

// The row at a position, as value records and payload bytes in two slices of the host's.
#[unsafe(no_mangle)]
pub extern "C" fn skiff2_decode(
    node_charge: u64,
    max_string32_bytes: u64,
    max_yson32_bytes: u64,
    max_row_bytes: u64,
    table: &[u8],
    names: &[u8],
    references: &[u8],
    registry: &[u8],
    input: &[u8],
    position: u64,
    records: &mut [u8],
    payload: &mut [u8],
    answer: &mut [u8],
) -> u32
    ensures { record { number = result; answer = answer.new; records = records.new; payload = payload.new }
        ≡ decode_given (slices table.now names.now references.now registry.now)
        (settings_of node_charge max_string32_bytes max_yson32_bytes max_row_bytes) input.now position answer.old
        records.old payload.old }
{
    skiff::reading::skiff2_decode(
        node_charge,
        max_string32_bytes,
        max_yson32_bytes,
        max_row_bytes,
        table,
        names,
        references,
        registry,
        input,
        position,
        records,
        payload,
        answer,
    )
}
