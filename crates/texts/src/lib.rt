// What a listing tells of values, made in a buffer: numbers, bytes in hex, and the line of a value record. Each function puts a text at
// a position and answers where the next one goes.
#![tactic(auto)]

ghost use Rattle.std.specs.Prelude.{◌+◌, ◌*◌, ◌≤◌, ◌<◌, ◌≡◌, nat_abs, length};
ghost use Rattle.rules.specs.Numerals.{integer_in};
ghost use Rattle.rules.specs.Listing.{number_text, refusal_line};
ghost use Rattle.lines.specs.Puts.{TextPut};
ghost use Rattle.texts.specs.Records.{is_stored, kept, IsNumber, Told, bytes_text, content_text, line_front, record_line};

use lines::{put_number, put_text, put_word};
use query::signed;
use rules::{Refusal, ValueRecord};
use text_hex::integers::put_signed;
use text_hex::{put_hex_bytes, put_hex_number};
use wire::codes::code_width;
use words::kind_word;

// ---- numbers

// How far a number is from 0. The lowest has no counterpart above 0, so that one is taken off and put on again.
fn magnitude(n: i64) -> u64
    ensures { result ≡ nat_abs n }
{
    if n < 0 {
        return (-1 - n) as u64 + 1;
    }
    n as u64
}

// A whole number in decimal.
fn put_integer(buffer: &mut [u8], at: usize, n: i64) -> usize
    requires { at + 21 ≤ length buffer.old }
    ensures text_put { TextPut buffer.old at (integer_in 10 n) buffer.new result }
    ensures upper_bound { result ≤ at + 21 }
{
    let size = magnitude(n);
    if n < 0 {
        return put_number(buffer, at, b"-", size);
    }
    put_number(buffer, at, b"", size)
}

// ---- a record

// Whether a record's content is in the payload store.
fn is_stored(kind: u8) -> bool
    ensures { result ≡ is_stored kind }
{
    if kind < 13 {
        if kind < 6 {
            return false;
        }
        return kind < 8;
    }
    kind < 15
}

// What the bits of a number say.
fn put_bits(buffer: &mut [u8], at: usize, kind: u8, bits: u64) -> usize
    requires { (at + 21 ≤ length buffer.old) × IsNumber kind bits }
    ensures text_put { TextPut buffer.old at (number_text kind bits) buffer.new result }
    ensures upper_bound { result ≤ at + 21 }
{
    if kind < 8 {
        return put_integer(buffer, at, signed(bits, code_width(kind)));
    }
    if kind < 12 {
        return put_number(buffer, at, b"", bits);
    }
    put_hex_number(buffer, at, 16, bits)
}

// What payload says: an int128 or int256 its number, a blob its bytes.
fn put_payload(buffer: &mut [u8], at: usize, kind: u8, payload: &[u8]) -> usize
    requires { (at + (1 + 2 * length payload.now) ≤ length buffer.old)
        × (kind < 8 → (0 < length payload.now) × (length payload.now ≤ 32)) }
    ensures text_put { TextPut buffer.old at (bytes_text kind payload.now) buffer.new result }
    ensures upper_bound { result ≤ at + (1 + 2 * length payload.now) }
{
    if kind < 8 {
        return put_signed(buffer, at, payload);
    }
    put_hex_bytes(buffer, at, payload)
}

// What a record's size and content say.
fn put_content(buffer: &mut [u8], at: usize, r: ValueRecord, store: &[u8]) -> usize
    requires { (at + (21 + 2 * kept r) ≤ length buffer.old) × Told r (length store.now) }
    ensures text_put { TextPut buffer.old at (content_text r store.now) buffer.new result }
    ensures upper_bound { result ≤ at + (21 + 2 * kept r) }
{
    let kind = r.kind;
    if is_stored(kind) {
        let from = r.content as usize;
        return put_payload(buffer, at, kind, &store[from..from + r.size as usize]);
    }
    if 14 < kind {
        return put_number(buffer, at, b"", r.size);
    }
    if kind == 0 {
        return put_text(buffer, at, b"-");
    }
    if kind == 1 {
        return put_number(buffer, at, b"", r.content);
    }
    put_bits(buffer, at, kind, r.content)
}

// Which row, how deep and chosen by which tag.
fn put_front(buffer: &mut [u8], at: usize, row: u64, depth: u64, tag: u64) -> usize
    requires { at + 62 ≤ length buffer.old }
    ensures text_put { TextPut buffer.old at (line_front row depth tag) buffer.new result }
    ensures upper_bound { result ≤ at + 62 }
{
    let next = put_number(buffer, at, b"", row);
    let next = put_number(buffer, next, b" ", depth);
    put_number(buffer, next, b" ", tag)
}

// The line of a record.
pub fn put_line(
    buffer: &mut [u8],
    at: usize,
    row: u64,
    depth: u64,
    r: ValueRecord,
    store: &[u8],
) -> usize
    requires { (at + (128 + 2 * kept r) ≤ length buffer.old) × Told r (length store.now) }
    ensures text_put { TextPut buffer.old at (record_line row depth r store.now) buffer.new result }
    ensures upper_bound { result ≤ at + (128 + 2 * kept r) }
{
    let kind = kind_word(r.kind);
    let next = put_front(buffer, at, row, depth, r.tag);
    let next = put_text(buffer, next, b" ");
    let next = put_word(buffer, next, &kind);
    let next = put_text(buffer, next, b" ");
    let next = put_content(buffer, next, r, store);
    put_text(buffer, next, b"\n")
}

// ---- the last line

// The line of a refusal: its number and its place.
pub fn put_refusal_line(buffer: &mut [u8], refusal: Refusal) -> usize
    requires { 64 ≤ length buffer.old }
    ensures text_put { TextPut buffer.old 0 (refusal_line refusal) buffer.new result }
    ensures upper_bound { result ≤ 64 }
{
    let report = refusal.in_numbers();
    let next = put_number(buffer, 0, b"refused ", report.number as u64);
    let next = put_number(buffer, next, b" ", report.place);
    put_text(buffer, next, b"\n")
}
