// The check of a value table: whether records and payload store are the table of some value (18). One walk over the records in
// preorder, each looked at once; it builds nothing.
#![tactic(auto)]

ghost use Rattle.std.specs.Prelude.{◌≡◌, ◌-◌, ◌≤◌, ◌<◌, Err, Some};
ghost use Rattle.rules.specs.Wire.{form};
ghost use Rattle.rules.specs.Refusals.{BadValueTable};
ghost use Rattle.rules.specs.ValueCheck.{table_form, value_table_rule};
ghost use Rattle.rules.specs.Query.{scalar_alone, parent_alone, record_alone};
ghost use Rattle.value.specs.Records.{tag_ok, stored_ok, own_size, most_content, scalar_ok, value_record_ok};
ghost use Rattle.value.specs.Walk.{walk_children, walk_table};

use record::value_record::{records_in, value_record_at, whole_records};
use rules::{LONGEST, Refusal, ValueRecord, Why};

// Where the walk stands: the next record, and the next byte of the payload store.
#[derive(Clone, Copy)]
pub struct TablePos {
    pub at: usize,
    pub from: usize,
}

// ---- one record

// The largest number that the data field of a scalar may hold. An arm for each kind, of which the compiler makes a table: so a number's
// bound costs one load and no jump.
fn most_content(kind: u8) -> u64
    requires { kind < 13 }
    ensures { result ≡ most_content (form kind) }
{
    match kind {
        0 => 0,
        1 => 1,
        2 => 255,
        3 => 65535,
        4 => 4294967295,
        5 => 18446744073709551615,
        6 => 18446744073709551615,
        7 => 18446744073709551615,
        8 => 255,
        9 => 65535,
        10 => 4294967295,
        11 => 18446744073709551615,
        _ => 18446744073709551615,
    }
}

// How many payload bytes a scalar has.
fn own_size(kind: u8) -> u64
    requires { kind < 13 }
    ensures { result ≡ own_size (form kind) }
{
    match kind {
        6 => 16,
        7 => 32,
        _ => 0,
    }
}

// Only a parent that chose the node by a tag leaves one in its record.
fn tag_ok(tagged: bool, tag: u64) -> bool
    ensures { result ≡ tag_ok tagged tag }
{
    if tagged {
        return true;
    }
    tag == 0
}

// Payload starts where the earlier payload ends, and lies in the store.
fn stored_ok(size: u64, content: u64, from: usize, store: usize) -> bool
    requires { from ≤ store }
    ensures { result ≡ stored_ok size content from store }
{
    if content != from as u64 {
        return false;
    }
    size <= (store - from) as u64
}

// A blob has any length and start, every other scalar its own length and a number that is not too large.
fn scalar_alone(kind: u8, size: u64, content: u64) -> bool
    requires { kind < 15 }
    ensures { result ≡ scalar_alone (form kind) size content }
{
    if 12 < kind {
        return true;
    }
    if size != own_size(kind) {
        return false;
    }
    content <= most_content(kind)
}

// Blobs have payload, and of the others those with a length.
fn scalar_ok(kind: u8, size: u64, content: u64, from: usize, store: usize) -> bool
    requires { (kind < 15) × (from ≤ store) }
    ensures { result ≡ scalar_ok (form kind) size content from store }
{
    if 12 < kind {
        return stored_ok(size, content, from, store);
    }
    if !scalar_alone(kind, size, content) {
        return false;
    }
    if size == 0 {
        return true;
    }
    stored_ok(size, content, from, store)
}

// A variant has one child, the other two any number.
fn parent_alone(kind: u8, size: u64, content: u64) -> bool
    requires { 15 ≤ kind }
    ensures { result ≡ parent_alone kind size content }
{
    if 17 < kind {
        return false;
    }
    if content != 0 {
        return false;
    }
    if kind == 15 {
        return size == 1;
    }
    true
}

// What a record says is right as far as it can be judged alone.
pub fn record_alone(r: ValueRecord) -> bool
    ensures { result ≡ record_alone r }
{
    let spare = r.spare;
    if spare != 0 {
        return false;
    }
    let kind = r.kind;
    if kind < 15 {
        return scalar_alone(kind, r.size, r.content);
    }
    parent_alone(kind, r.size, r.content)
}

// What a record says is right where it stands, but for its children.
pub fn record_ok(r: ValueRecord, tagged: bool, from: usize, store: usize) -> bool
    requires { from ≤ store }
    ensures { result ≡ value_record_ok r tagged from store }
{
    let spare = r.spare;
    if spare != 0 {
        return false;
    }
    if !tag_ok(tagged, r.tag) {
        return false;
    }
    let kind = r.kind;
    if kind < 15 {
        return scalar_ok(kind, r.size, r.content, from, store);
    }
    parent_alone(kind, r.size, r.content)
}

// ---- a value

// A scalar's record and its payload; or Broken, which says no more than that none is found there.
fn walk_scalar(
    records: &[u8],
    store: usize,
    depth: usize,
    tagged: bool,
    p: TablePos,
) -> Option<TablePos>
    requires { p.from ≤ store }
    ensures { (q : TablePos) → result ≡ Some q → result ≡ walk_table records.now store depth tagged p }
{
    if depth == 0 {
        return None;
    }
    let at = p.at;
    let from = p.from;
    if records_in(records.len() as u64) <= at as u64 {
        return None;
    }
    let r = value_record_at(records, at);
    if 14 < r.kind {
        return None;
    }
    if !record_ok(r, tagged, from, store) {
        return None;
    }
    Some(TablePos {
        at: at + 1,
        from: from + r.size as usize,
    })
}

// The node step. What has no children has its payload's length in the field for the size, or 0. A variant with a scalar below it, as an
// optional column is, takes no children step.
#[cycle(walk_children_walk_value)]
fn walk_value(
    records: &[u8],
    store: usize,
    depth: usize,
    tagged: bool,
    p: TablePos,
) -> Option<TablePos>
    requires { p.from ≤ store }
    ensures { result ≡ walk_table records.now store depth tagged p }
{
    if depth == 0 {
        return None;
    }
    let at = p.at;
    let from = p.from;
    if records_in(records.len() as u64) <= at as u64 {
        return None;
    }
    let r = value_record_at(records, at);
    if !record_ok(r, tagged, from, store) {
        return None;
    }
    let kind = r.kind;
    let size = r.size;
    if kind < 15 {
        return Some(TablePos {
            at: at + 1,
            from: from + size as usize,
        });
    }
    let below = TablePos { at: at + 1, from };
    if kind == 15 {
        let leaf = walk_scalar(records, store, depth - 1, true, below);
        if let Some(q) = leaf {
            return Some(q);
        }
    }
    // What a call lends has to lie in memory: copied here, so that a scalar is spared that.
    let table = records;
    // The answer is taken apart and built anew: returned as it came, it would go through memory once more.
    let q = walk_children(table, store, depth, kind < 17, size, below)?;
    Some(q)
}

// The children step: so many values, one after another. A count that the records do not keep ends where they end.
#[cycle(walk_children_walk_value)]
fn walk_children(
    records: &[u8],
    store: usize,
    depth: usize,
    tagged: bool,
    count: u64,
    p: TablePos,
) -> Option<TablePos>
    requires { (0 < depth) × (p.from ≤ store) }
    ensures { result ≡ walk_children (walk_table records.now store (depth - 1) tagged) count p }
{
    let mut q = p;
    for _ in 0..count {
        let next = walk_value(records, store, depth - 1, tagged, q)?;
        q = next;
    }
    Some(q)
}

// ---- the table

fn no_table() -> Result<(), Refusal>
    ensures { result ≡ Err BadValueTable }
{
    Err(Refusal {
        why: Why::BadValueTable,
        place: 0,
    })
}

// The form alone, the sizes left to a caller that has more to test before it. The one tree is entered by the children step: so the node
// step has one caller, is compiled into it, and a scalar costs no call.
pub fn table_form(records: &[u8], payload: &[u8]) -> Result<(), Refusal>
    ensures { result ≡ table_form records.now payload.now }
{
    let bytes = records.len() as u64;
    let store = payload.len();
    if !whole_records(bytes) {
        return no_table();
    }
    let s = walk_children(records, store, 65, false, 1, TablePos { at: 0, from: 0 });
    let Some(end) = s else {
        return no_table();
    };
    if end.at as u64 != records_in(bytes) {
        return no_table();
    }
    if end.from != store {
        return no_table();
    }
    Ok(())
}

// The check of a value table.
pub fn check_value_table(records: &[u8], payload: &[u8]) -> Result<(), Refusal>
    ensures { result ≡ value_table_rule records.now payload.now }
{
    if LONGEST < records.len() {
        return Err(Refusal::SETTING);
    }
    if LONGEST < payload.len() {
        return Err(Refusal::SETTING);
    }
    table_form(records, payload)
}
