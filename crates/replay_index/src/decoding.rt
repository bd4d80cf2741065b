// A row that an index leads to, decoded into two lent slices.
use cases::answer_lines::{end_line, shown, write_bytes, write_report};
use cases::lent_room;
use cases::reports::read;
use indexed_row::decode_indexed;
use rules::{Format, Settings};

// Decodes the row of a number and writes its line.
fn write_into(
    out: &impl Print,
    settings: Settings,
    format: &Format,
    input: &[u8],
    index: &[u8],
    row: u64,
    records: &mut [u8],
    payload: &mut [u8],
) {
    let found = decode_indexed(settings, format, input, index, row, records, payload);
    write_report(out, read(found));
    write_bytes(out, records);
    write_bytes(out, payload);
    end_line(out);
}

// The same with slices of its own, whose lengths are the halves of `sizes`.
pub fn decode_row(
    out: &impl Print,
    settings: Settings,
    format: &Format,
    input: &[u8],
    index: &[u8],
    row: u64,
    sizes: u64,
) {
    let n = shown(sizes % 65536);
    let m = shown(sizes / 65536);
    let mut records = lent_room();
    let mut payload = lent_room();
    write_into(
        out,
        settings,
        format,
        input,
        index,
        row,
        &mut records[0..n],
        &mut payload[0..m],
    );
}
