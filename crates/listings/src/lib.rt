// What the listing programs share: a listing goes to standard output piece by piece, and the three files are those of the folder that a
// program is run in.
#![tactic(auto)]

ghost use Rattle.std.specs.Prelude.{◌+◌, ◌≤◌, ◌≡◌, length, take};
ghost use Rattle.rules.specs.Listing.{pieces};
ghost use Rattle.listings.specs.Telling.{IsPiece};

use listing_lines::pieces::{Shown, put_piece};
use reads::filling::read_full;
use rules::Refusal;
use std::fs::{Files, open};
use std::io::Read;
use std::str::from_utf8;
use texts::put_refusal_line;

// A failed write is not told: there is nowhere to tell it.
fn write_text(out: &impl Print, text: &[u8]) {
    let _ = out.write_all(text);
}

// A text that is piece `row` of the listing, counted from 0, goes to standard output.
fn hand_on(
    out: &impl Print,
    schema: &[u8],
    names: &[u8],
    stream: &[u8],
    row: u64,
    text: &[u8],
    end: usize,
)
    requires { IsPiece schema.now names.now stream.now row (take end text.now) × (end ≤ length text.now) }
{
    write_text(out, &text[..end]);
}

// Hands on all pieces, in order, and answers how many they were.
fn tell_pieces(out: &impl Print, schema: &[u8], names: &[u8], stream: &[u8], text: &mut [u8]) -> u64
    requires { 655360 ≤ length text.old }
    ensures { result ≡ length (pieces schema.now names.now stream.now) }
{
    // Counted by hand: what put_piece shows ends it, and says how far the position goes.
    let mut row: u64 = 0;
    let mut at: u64 = 0;
    loop {
        let shown = put_piece(schema, names, stream, row, at, text);
        match shown {
            Shown::Row(end, bytes) => {
                hand_on(out, schema, names, stream, row, text, end);
                row += 1;
                at += bytes;
            }
            Shown::Last(end) => {
                hand_on(out, schema, names, stream, row, text, end);
                return row + 1;
            }
            Shown::NoRoom => return row,
        }
    }
}

// Room for the lines of any row. The `ensures` gives only the length, which lending the array as a slice needs.
fn text_room() -> [u8; 655360]
    ensures { 655360 ≡ length result }
{
    [0; 655360]
}

// The listing of three files goes to standard output.
pub fn tell_listing(out: &impl Print, schema: &[u8], names: &[u8], stream: &[u8]) {
    let mut text = text_room();
    tell_pieces(out, schema, names, stream, &mut text);
}

// ---- files

// One byte more than a file may have, so that a longer one is told.
fn file_room() -> [u8; 65537]
    ensures { 65537 ≡ length result }
{
    [0; 65537]
}

// Opens a file for reading. The library opens files only by names that are UTF-8 text.
fn open_file<R: Files>(files: &R, name: &[u8]) -> Option<R::File> {
    let text = from_utf8(name).ok()?;
    open(files, text).ok()
}

// Whether one more read answers no bytes, as at the end of a file. A failed read is none.
fn is_at_end<R: Read>(file: &mut R) -> bool {
    let mut one = [0u8; 1];
    let last = file.read(&mut one);
    match last {
        Ok(n) => n == 0,
        Err(_) => false,
    }
}

// Reads a file into the space and answers its bytes, or more than the space has where it is missing, too long or not to be read to its
// end: there one more read answers 0.
fn read_file<R: Files>(files: &R, name: &[u8], space: &mut [u8]) -> usize {
    let past = space.len() + 1;
    let Some(mut file) = open_file(files, name) else {
        return past;
    };
    let end = read_full(&mut file, space);
    let is_whole = is_at_end(&mut file);
    if end == space.len() {
        return past;
    }
    if !is_whole {
        return past;
    }
    end
}

// What is told where a file is missing or too long.
fn tell_refused(out: &impl Print) {
    let mut text = [0u8; 4096];
    let n = put_refusal_line(&mut text, Refusal::SETTING);
    write_text(out, &text[..n]);
}

// Lists the delivery of three files: the schema's records, the names and the rows.
pub fn list_files<R: Files + Print>(
    rt: &R,
    schema_name: &[u8],
    names_name: &[u8],
    rows_name: &[u8],
) {
    let mut schema = file_room();
    let mut names = file_room();
    let mut stream = file_room();
    let s = read_file(rt, schema_name, &mut schema);
    let n = read_file(rt, names_name, &mut names);
    let r = read_file(rt, rows_name, &mut stream);
    if schema.len() < s {
        tell_refused(rt);
        return;
    }
    if names.len() < n {
        tell_refused(rt);
        return;
    }
    if stream.len() < r {
        tell_refused(rt);
        return;
    }
    tell_listing(rt, &schema[..s], &names[..n], &stream[..r]);
}
