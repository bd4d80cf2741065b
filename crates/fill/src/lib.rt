// The filling walk of decode: a row that was judged and accepted before is written as value records and payload bytes into
// two lent slices. It cannot refuse, so it tests nothing but wire codes, end tags and counts: that every byte is there and
// that there is room for it is what each function requires.
#![tactic(auto)]

ghost use Rattle.std.specs.Prelude.{◌≡◌, ◌+◌, ◌-◌, ◌^◌, ◌≤◌, ◌<◌, length, ltb};
ghost use Rattle.rules.specs.Bytes.{le_at, part, over};
ghost use Rattle.rules.specs.Wire.{form, width_of};
ghost use Rattle.rules.specs.Block.{node_start, NodeIn, node_at, Closed};
ghost use Rattle.rules.specs.ValueRecord.{value_record_start, ValueRecordIn, value_record, layout};
ghost use Rattle.rules.specs.ValueTable.{bit, payload_bytes, flat};
ghost use Rattle.rules.specs.Writing.{kind_for};
ghost use Rattle.fill.specs.Plain.{leaf_at, read_at};
ghost use Rattle.fill.specs.Filling.{RoomToFill, Filled, Fillable, row_value, scalar_of, tag_length, next_of};
ghost use Rattle.fill.specs.Leads.{Held, LeadsToFill};

use leaves::fields::ends;
use payload::{copy, copy_wide};
use record::node::{node_children, node_code, node_first};
use record::value_record::put_record;
use wire::codes::{code_width, tag_width};
use wire::{field, u16_at, u32_at, wide};

// Where the walk stands: the next byte of the input, the next record, the next payload byte.
#[derive(Clone, Copy)]
pub struct FillPos {
    pub at: usize,
    pub records: usize,
    pub payload: usize,
}

// A node's next child, by the tag that it bears, its node and its first byte; or where the children end.
#[derive(Clone, Copy)]
pub enum Next {
    Child(u64, usize, usize),
    End(usize),
}

// ---- nodes without children

// A boolean's byte as it is stored.
fn stored_boolean(x: u64) -> u64
    ensures { result ≡ bit (ltb 0 x) }
{
    if x == 0 { 0 } else { 1 }
}

// The wire bytes of a scalar as a number, and 1 for every boolean that is not 0.
fn scalar_at(code: u8, input: &[u8], at: usize, width: usize) -> u64
    requires { (width ≤ 8) × (width ≤ length input.now - at) }
    ensures { result ≡ scalar_of input.now code width at }
{
    // A value without bytes may stand where the input ends.
    if width == 0 {
        return 0;
    }
    let x = field(input, at, width);
    if code == 1 {
        return stored_boolean(x);
    }
    x
}

// The record of a value whose n bytes, from position `from` on, are payload, and where the walk stands after it.
fn fill_stored(code: u8, from: usize, n: usize, tag: u64, s: FillPos, records: &mut [u8]) -> FillPos
    requires { ValueRecordIn s.records (length records.old) × (from + n < 2 ^ 64) × (s.payload + n < 2 ^ 64) }
    ensures spot { result ≡ record { at = from + n; records = s.records + 1; payload = s.payload + n } }
    ensures records { records.new ≡ over records.old (value_record_start s.records)
        (layout (value_record code tag n s.payload)) }
{
    let i = s.records;
    let to = s.payload;
    put_record(records, i, code, tag, n as u64, to as u64);
    FillPos {
        at: from + n,
        records: i + 1,
        payload: to + n,
    }
}

// A blob has its length before it, int128 and int256 have more bytes than a record holds, and all else is in the record. Payload goes
// straight from one slice into the other.
fn fill_leaf(
    code: u8,
    input: &[u8],
    tag: u64,
    s: FillPos,
    records: &mut [u8],
    payload: &mut [u8],
) -> FillPos
    requires { (code < 15) × RoomToFill (leaf_at input.now code (form code) s.at) s (length records.old) (length payload.old) }
    ensures { Filled (leaf_at input.now code (form code) s.at) tag s result records.old
        records.new payload.old payload.new }
{
    let at = s.at;
    let to = s.payload;
    if 12 < code {
        let n = u32_at(input, at) as usize;
        copy(input, at + 4, n, payload, to);
        return fill_stored(code, at + 4, n, tag, s, records);
    }
    let width = code_width(code);
    if 8 < width {
        copy_wide(input, at, width, payload, to);
        return fill_stored(code, at, width, tag, s, records);
    }
    let i = s.records;
    put_record(records, i, code, tag, 0, scalar_at(code, input, at, width));
    FillPos {
        at: at + width,
        records: i + 1,
        payload: s.payload,
    }
}

// ---- nodes with children

fn tag_at(code: u8, input: &[u8], at: usize) -> u64
    requires { (14 < code) × (code < 19) × (at + width_of (form code) ≤ length input.now) }
    ensures { (result ≡ le_at input.now at (width_of (form code))) × (result < 65536) }
{
    if tag_width(code) == 1 {
        return wide(input[at]);
    }
    u16_at(input, at)
}

// The child after i others. A variant has one child, a tuple `count`, and the repeated types have children up to the end tag.
fn next_child(code: u8, first: usize, count: usize, input: &[u8], i: usize, at: usize) -> Next
    requires { (14 < code) × (code < 20) × (node_start (first + count) < 2 ^ 64) × (tag_length (form code) i ≤ length input.now - at) }
    ensures { result ≡ next_of input.now first count (form code) i at }
{
    if code == 19 {
        if i < count {
            return Next::Child(0, first + i, at);
        }
        return Next::End(at);
    }
    if code < 17 {
        if 0 < i {
            return Next::End(at);
        }
        let tag = tag_at(code, input, at);
        return Next::Child(tag, first + tag as usize, at + tag_width(code));
    }
    let tag = tag_at(code, input, at);
    let next = at + tag_width(code);
    if ends(code, tag) {
        return Next::End(next);
    }
    Next::Child(tag, first + tag as usize, next)
}

// The same records and payload, at another position of the input.
fn fill_pos_at(s: FillPos, at: usize) -> FillPos
    ensures { result ≡ record { at = at; records = s.records; payload = s.payload } }
{
    FillPos {
        at,
        records: s.records,
        payload: s.payload,
    }
}

// The kind of a value record, from the wire code.
fn kind_of(code: u8) -> u8
    requires { (14 < code) × (code < 20) }
    ensures { result ≡ kind_for code (form code) }
{
    if code < 17 {
        return 15;
    }
    if code < 19 {
        return 16;
    }
    17
}

// The children of a node, and then the node's own record: it stands before theirs, and has their count.
#[cycle(fill_children_fill_value)]
fn fill_children(
    block: &[u8],
    node: usize,
    depth: usize,
    input: &[u8],
    tag: u64,
    s: FillPos,
    records: &mut [u8],
    payload: &mut [u8],
) -> FillPos
    requires { Closed block.now × NodeIn node (length block.now) × (14 < (node_at block.now node).code)
        × RoomToFill (read_at block.now input.now depth node s.at) s (length records.old) (length payload.old) }
    ensures { Filled (read_at block.now input.now depth node s.at)
        tag s result records.old records.new payload.old payload.new }
{
    let code = node_code(block, node);
    let first = node_first(block, node) as usize;
    let count = node_children(block, node) as usize;
    let own = s.records;
    let mut q = FillPos {
        at: s.at,
        records: own + 1,
        payload: s.payload,
    };
    let mut n = 0;
    // A `loop`: an end tag may end the children, so that no count does.
    loop {
        let at = q.at;
        let next = next_child(code, first, count, input, n, at);
        match next {
            Next::Child(bears, child, start) => {
                let p = fill_pos_at(q, start);
                q = fill_value(block, child, depth - 1, input, bears, p, records, payload);
                n += 1;
            }
            Next::End(end) => {
                put_record(records, own, kind_of(code), tag, n as u64, 0);
                return fill_pos_at(q, end);
            }
        }
    }
}

// A node is a leaf itself, or a variant whose tag names one, whose own record is written here: so an optional column takes no children
// step, as in the walk that judged it.
fn leaf_at(
    block: &[u8],
    node: usize,
    code: u8,
    depth: usize,
    input: &[u8],
    tag: u64,
    s: FillPos,
    records: &mut [u8],
) -> Option<(u8, u64, FillPos)>
    requires { Closed block.now × NodeIn node (length block.now) × (code ≡ (node_at block.now node).code)
        × Held (read_at block.now input.now depth node s.at) s (length records.old) }
    ensures { LeadsToFill (read_at block.now input.now depth node s.at) input.now
        code tag s records.old records.new result }
{
    if code < 15 {
        return Some((code, tag, s));
    }
    if 16 < code {
        return None;
    }
    let at = s.at;
    let bears = tag_at(code, input, at);
    let first = node_first(block, node);
    let child = (first + bears) as usize;
    let below = node_code(block, child);
    if 14 < below {
        return None;
    }
    let own = s.records;
    put_record(records, own, 15, tag, 1, 0);
    Some((
        below,
        bears,
        FillPos {
            at: at + tag_width(code),
            records: own + 1,
            payload: s.payload,
        },
    ))
}

// A node and all below it, as the child that its parent chose by `tag`.
#[cycle(fill_children_fill_value)]
fn fill_value(
    block: &[u8],
    node: usize,
    depth: usize,
    input: &[u8],
    tag: u64,
    s: FillPos,
    records: &mut [u8],
    payload: &mut [u8],
) -> FillPos
    requires { Closed block.now × NodeIn node (length block.now)
        × RoomToFill (read_at block.now input.now depth node s.at) s (length records.old) (length payload.old) }
    ensures { Filled (read_at block.now input.now depth node s.at)
        tag s result records.old records.new payload.old payload.new }
{
    let code = node_code(block, node);
    let reached = leaf_at(block, node, code, depth, input, tag, s, records);
    match reached {
        Some((below, bears, from)) => { fill_leaf(below, input, bears, from, records, payload) }
        None => {
            // What a call lends has to lie in memory: copied here, so that a leaf is spared that.
            let nodes = block;
            let bytes = input;
            fill_children(nodes, node, depth, bytes, tag, s, records, payload)
        }
    }
}

// A row's root, from position `at` on, into the starts of both slices: what decode leaves. The root has children, and so the
// row enters by the children step: the node step then has one caller, and the compiler makes one function of the two.
pub fn fill_row(block: &[u8], input: &[u8], at: usize, records: &mut [u8], payload: &mut [u8])
    requires { Fillable block.now input.now at (length records.old) (length payload.old) }
    ensures records { records.new ≡ over records.old 0
        (flat (row_value block.now input.now at) 0 0) }
    ensures payload { payload.new ≡ over payload.old 0
        (payload_bytes (row_value block.now input.now at)) }
{
    let s = FillPos {
        at,
        records: 0,
        payload: 0,
    };
    fill_children(block, 0, 64, input, 0, s, records, payload);
}
