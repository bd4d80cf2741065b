// The calls about a value table: the row that it is, written, and whether it is one.
ghost use Rattle.std.specs.Prelude.{◌≡◌};
ghost use Rattle.skiff.specs.Calls.{settings_of, encode_given, check_value_table_given};

// The value of a value table, as a row at a position of the output.
#[unsafe(no_mangle)]
pub extern "C" fn skiff2_encode(
    node_charge: u64,
    max_string32_bytes: u64,
    max_yson32_bytes: u64,
    max_row_bytes: u64,
    table: &[u8],
    names: &[u8],
    first: u64,
    count: u64,
    records: &[u8],
    payload: &[u8],
    output: &mut [u8],
    position: u64,
    answer: &mut [u8],
) -> u32
    ensures { record { number = result; answer = answer.new; lent = output.new }
        ≡ encode_given (settings_of node_charge max_string32_bytes max_yson32_bytes max_row_bytes)
        table.now names.now first count records.now payload.now
        output.old position answer.old }
{
    skiff::writing::skiff2_encode(
        node_charge,
        max_string32_bytes,
        max_yson32_bytes,
        max_row_bytes,
        table,
        names,
        first,
        count,
        records,
        payload,
        output,
        position,
        answer,
    )
}

// Whether records and payload are the table of some value.
#[unsafe(no_mangle)]
pub extern "C" fn skiff2_check_value_table(records: &[u8], payload: &[u8], answer: &mut [u8]) -> u32
    ensures { record { number = result; answer = answer.new }
        ≡ check_value_table_given records.now payload.now answer.old }
{
    skiff::writing::skiff2_check_value_table(records, payload, answer)
}
