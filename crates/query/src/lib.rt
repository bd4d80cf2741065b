// The value query: what one record of a value table says. The record is looked at as far as it can be judged alone, so that a host
// needs no payload store.
#![tactic(auto)]

ghost use Rattle.std.specs.Prelude.{◌≡◌, true, ◌+◌, ◌^◌, ◌≤◌, ◌<◌};
ghost use Rattle.rules.specs.Wire.{form};
ghost use Rattle.rules.specs.Query as rule;
ghost use Rattle.rules.specs.Query.{scalar_alone, record_alone, record_seen, double_said, scalar_said, record_said, query_rule};

use record::value_record::{records_in, value_record_at, whole_records};
use rules::{LONGEST, Refusal, Scalar, ValueRecord};
use value::record_alone;
use wire::codes::code_width;

// Record i by itself: 1 where it is not there, then 18.
pub fn record_seen(records: &[u8], i: usize) -> Result<ValueRecord, Refusal>
    ensures { result ≡ record_seen records.now i }
{
    if LONGEST < records.len() {
        return Err(Refusal::SETTING);
    }
    let bytes = records.len() as u64;
    if records_in(bytes) <= i as u64 {
        return Err(Refusal::SETTING);
    }
    if !whole_records(bytes) {
        return Err(Refusal::BAD_VALUE_TABLE);
    }
    let r = value_record_at(records, i);
    if !record_alone(r) {
        return Err(Refusal::BAD_VALUE_TABLE);
    }
    Ok(r)
}

// ---- numbers

// The largest number of so many bytes.
fn largest(width: usize) -> u64
    requires { width ≤ 8 }
    ensures { result + 1 ≡ 256 ^ width }
{
    match width {
        0 => 0,
        1 => 255,
        2 => 65535,
        3 => 16777215,
        4 => 4294967295,
        5 => 1099511627775,
        6 => 281474976710655,
        7 => 72057594037927935,
        _ => 18446744073709551615,
    }
}

// The number that so many bytes are in two's complement. What the largest lacks to it, and one more, is what a negative one lacks to
// nothing: so the lowest of each width needs no larger type.
pub fn signed(x: u64, width: usize) -> i64
    requires { (width ≤ 8) × (x < 256 ^ width) }
    ensures { result ≡ rule.signed width x }
{
    let top = largest(width);
    if x <= top / 2 {
        return x as i64;
    }
    -1 - ((top - x) as i64)
}

// The double of these bits, unless they are a NaN's.
fn double_of(bits: u64) -> Scalar
    ensures { result ≡ double_said bits }
{
    let magnitude = bits % 0x8000_0000_0000_0000;
    if 0x7ff0_0000_0000_0000 < magnitude {
        return Scalar::NotANumber(bits);
    }
    Scalar::Double(f64::from_bits(bits))
}

// ---- a record

// What a scalar or a blob says: blobs and what is wider than eight bytes are payload.
fn scalar_said(kind: u8, size: u64, content: u64) -> Scalar
    requires { (kind < 15) × (scalar_alone (form kind) size content ≡ true) }
    ensures { result ≡ scalar_said kind (form kind) size content }
{
    if 12 < kind {
        return Scalar::Payload(content, size);
    }
    if kind == 0 {
        return Scalar::Nothing;
    }
    if kind == 1 {
        return Scalar::Truth(0 < content);
    }
    let width = code_width(kind);
    if 8 < width {
        return Scalar::Payload(content, size);
    }
    if kind < 8 {
        return Scalar::Signed(signed(content, width));
    }
    if kind < 12 {
        return Scalar::Unsigned(content);
    }
    double_of(content)
}

// What a record that is right by itself says.
fn record_said(r: ValueRecord) -> Scalar
    requires { record_alone r ≡ true }
    ensures { result ≡ record_said r }
{
    let kind = r.kind;
    if kind < 15 {
        return scalar_said(kind, r.size, r.content);
    }
    Scalar::Children(r.size)
}

// ---- the query

// The value of record i.
pub fn value_of(records: &[u8], i: usize) -> Result<Scalar, Refusal>
    ensures { result ≡ query_rule records.now i }
{
    let r = record_seen(records, i)?;
    Ok(record_said(r))
}
