// The listing of three files, piece by piece: the lines of each row, and the last line. Each call makes one piece.
ghost use Rattle.std.specs.Prelude.{◌≤◌, ◌≡◌, [], length};
ghost use Rattle.rules.specs.Block as block;
ghost use Rattle.rules.specs.Rows.{one_table};
ghost use Rattle.rules.specs.Listing.{files_ok, piece_at};
ghost use Rattle.listing_lines.specs.Pieces.{shown_length, show_piece, piece_shown};

use crate::rows::list_row;
use decode::next_row;
use lines::put_end_line;
use record::node::NODE_SIZE;
use rules::{Format, Refusal, Settings};
use texts::put_refusal_line;

// What stands at the start of a buffer: the lines of a row, how many bytes of text they are, and how many bytes of the stream the row is;
// the last line and its bytes; or nothing, since there is no room for any row's lines.
// (Three cases, one of them without data: an `Option` of an enum of two would say the same with a layer more.)
#[derive(Clone, Copy)]
pub enum Shown {
    Row(usize, u64),
    Last(usize),
    NoRoom,
}

// A file has at most so many bytes; and so many have the records and the payload of a row.
const FILE_BYTES: usize = 65536;

// The lines of 4,096 records and of 65,536 bytes of payload are no longer.
pub const TEXT_ROOM: usize = 655360;

// Room for a row's records, or for its payload. The `ensures` gives only the length, which lending the array as a slice needs.
fn row_room() -> [u8; 65536]
    ensures { 65536 ≡ length result }
{
    [0; 65536]
}

// Whether no file is too long.
fn files_ok(schema: &[u8], names: &[u8], stream: &[u8]) -> bool
    ensures { result ≡ files_ok schema.now names.now stream.now }
{
    schema.len() <= FILE_BYTES && names.len() <= FILE_BYTES && stream.len() <= FILE_BYTES
}

// The reference of an inline table whose block is the first `count` records.
fn inline_table(count: usize) -> [u8; 16]
    ensures { (result ≡ (one_table count [] []).references) × (length result ≡ 16) }
{
    let second = count / 256;
    let third = second / 256;
    let fourth = third / 256;
    [
        0,
        0,
        0,
        0,
        0,
        0,
        0,
        0,
        (count % 256) as u8,
        (second % 256) as u8,
        (third % 256) as u8,
        (fourth % 256) as u8,
        0,
        0,
        0,
        0,
    ]
}

// The piece of files that are not too long, with room for a row's records and payload.
fn put_read(
    schema: &[u8],
    names: &[u8],
    stream: &[u8],
    row: u64,
    at: u64,
    records: &mut [u8],
    payload: &mut [u8],
    text: &mut [u8],
) -> Shown
    requires { (length records.old ≡ 65536) × (length payload.old ≡ 65536) × (655360 ≤ length text.old) }
    ensures text_after { record { shown = result; text = text.new }
        ≡ show_piece (piece_at (one_table (block.records schema.now) schema.now names.now)
        stream.now row at) text.old }
    ensures result_bound { shown_length result ≤ 655360 }
{
    let reference = inline_table(schema.len() / NODE_SIZE);
    let read = next_row(
        Settings::new(),
        &Format {
            table: schema,
            names,
            references: &reference,
            registry: b"",
        },
        stream,
        at,
        records,
        payload,
    );
    match read {
        Ok(found) => match found {
            Some(extent) => Shown::Row(list_row(records, payload, row, text), extent.bytes),
            None => Shown::Last(put_end_line(text, row, at)),
        },
        Err(why) => Shown::Last(put_refusal_line(text, why)),
    }
}

// The piece of three files at a position of the stream, after so many rows: the next one follows the row's bytes, after one row more.
pub fn put_piece(
    schema: &[u8],
    names: &[u8],
    stream: &[u8],
    row: u64,
    at: u64,
    text: &mut [u8],
) -> Shown
    ensures text_after { record { shown = result; text = text.new }
        ≡ piece_shown schema.now names.now stream.now row at text.old }
    ensures result_bound { shown_length result ≤ 655360 }
{
    if text.len() < TEXT_ROOM {
        return Shown::NoRoom;
    }
    if !files_ok(schema, names, stream) {
        return Shown::Last(put_refusal_line(text, Refusal::SETTING));
    }
    let mut records = row_room();
    let mut payload = row_room();
    put_read(
        schema,
        names,
        stream,
        row,
        at,
        &mut records,
        &mut payload,
        text,
    )
}
