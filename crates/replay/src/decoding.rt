// A row decoded into two lent slices.
use cases::answer_lines::{end_line, shown, write_bytes, write_report};
use cases::lent_room;
use cases::reports::read;
use decode::next_row;
use rules::{Format, Settings};

// Decodes the row at a position and writes its line.
fn write_into(
    out: &impl Print,
    settings: Settings,
    format: &Format,
    input: &[u8],
    position: u64,
    records: &mut [u8],
    payload: &mut [u8],
) {
    let row = next_row(settings, format, input, position, records, payload);
    write_report(out, read(row));
    write_bytes(out, records);
    write_bytes(out, payload);
    end_line(out);
}

// The same with slices of its own, whose lengths are the halves of `sizes`.
pub fn decode_row(
    out: &impl Print,
    settings: Settings,
    format: &Format,
    input: &[u8],
    position: u64,
    sizes: u64,
) {
    let n = shown(sizes % 4294967296);
    let m = shown(sizes / 4294967296);
    let mut records = lent_room();
    let mut payload = lent_room();
    write_into(
        out,
        settings,
        format,
        input,
        position,
        &mut records[0..n],
        &mut payload[0..m],
    );
}
