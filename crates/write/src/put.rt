// The walk that writes: a value table that was judged and accepted before is written as a row, where there is room for it. It cannot
// refuse, so it tests nothing but wire codes and counts.
ghost use Rattle.std.specs.Prelude.{◌≡◌, ◌+◌, ◌^◌, ◌≤◌, ◌<◌, length};
ghost use Rattle.rules.specs.Bytes.{le, over};
ghost use Rattle.rules.specs.Block.{node_at};
ghost use Rattle.rules.specs.ValueRecord.{value_record_at};
ghost use Rattle.leaves.specs.Shapes.{shape_of};
ghost use Rattle.write.specs.Leads.{LeadsToPut};
ghost use Rattle.judge.specs.Tags.{tag_bytes, closing};
ghost use Rattle.write.specs.Putting.{child_node, leaf_kept, leaf_size, leaf_bytes, Writable, Parted, Placed, RowWritable, row_bytes};

use payload::{copy, copy_wide};
use record::node::{node_code, node_first};
use record::value_record::value_record_at;
use rules::ValueRecord;
use wire::codes::{code_width, tag_width};
use wire::store::{put16, put32, put64};

// Where the walk stands: the next value record, the next payload byte, the next byte of the output.
#[derive(Clone, Copy)]
pub struct WritePos {
    pub at: usize,
    pub from: usize,
    pub to: usize,
}

// ---- numbers

// The low bytes of a number, one after another.
fn put_bytes(out: &mut [u8], at: usize, width: usize, x: u64)
    requires { at + width ≤ length out.old }
    ensures { out.new ≡ over out.old at (le width x) }
{
    let mut left = x;
    for k in 0..width {
        out[at + k] = (left % 256) as u8;
        left = left / 256;
    }
}

// A number in `width` bytes, for the widths that are known only at run time: those of scalars by one store.
fn put_number(out: &mut [u8], at: usize, width: usize, x: u64)
    requires { at + width ≤ length out.old }
    ensures { out.new ≡ over out.old at (le width x) }
{
    match width {
        0 => {}
        1 => {
            out[at] = (x % 256) as u8;
        }
        2 => put16(out, at, x),
        4 => put32(out, at, x),
        8 => put64(out, at, x),
        _ => put_bytes(out, at, width, x),
    }
}

// ---- nodes without children

// A blob has its length before it, int128 and int256 come from the payload store, and all else from the record. It is compiled into the
// node step, and that into the children step and into a flat row's loop, so that a leaf costs no call.
#[inline(always)]
fn put_leaf(
    code: u8,
    size: u64,
    content: u64,
    payload: &[u8],
    p: WritePos,
    out: &mut [u8],
) -> WritePos
    requires { (code < 15) × (p.at + 1 < 2 ^ 64) × (p.from + leaf_kept code size ≤ length payload.now)
        × (p.to + leaf_size code size ≤ length out.old) }
    ensures spot { result ≡ record { at = p.at + 1; from = p.from + leaf_kept code size; to = p.to + leaf_size code size } }
    ensures out { out.new ≡ over out.old p.to (leaf_bytes payload.now code size content p.from) }
{
    let at = p.at;
    let from = p.from;
    let to = p.to;
    if 12 < code {
        let n = size as usize;
        put32(out, to, size);
        copy(payload, from, n, out, to + 4);
        return WritePos {
            at: at + 1,
            from: from + n,
            to: to + (4 + n),
        };
    }
    let width = code_width(code);
    if 8 < width {
        copy_wide(payload, from, width, out, to);
        return WritePos {
            at: at + 1,
            from: from + width,
            to: to + width,
        };
    }
    put_number(out, to, width, content);
    WritePos {
        at: at + 1,
        from,
        to: to + width,
    }
}

// ---- nodes with children

// The child after i others, whose record bears `tag`.
fn child_of(code: u8, first: u64, i: u64, tag: u64) -> usize
    requires { (first + i < 2 ^ 64) × (first + tag < 2 ^ 64) }
    ensures { result ≡ child_node (shape_of code) first i tag }
{
    if code < 19 {
        return (first + tag) as usize;
    }
    (first + i) as usize
}

// The tag that chooses a child, and the position after it; a tuple's children have none.
fn put_tag(code: u8, tag: u64, out: &mut [u8], to: usize) -> usize
    requires { (14 < code) × (code ≤ 19) × (to + length (tag_bytes (shape_of code) tag) ≤ length out.old) }
    ensures next { result ≡ to + length (tag_bytes (shape_of code) tag) }
    ensures out { out.new ≡ over out.old to (tag_bytes (shape_of code) tag) }
{
    if 18 < code {
        return to;
    }
    let width = tag_width(code);
    put_number(out, to, width, tag);
    to + width
}

// The end tag of the repeated types, and the position after it.
fn put_end(code: u8, out: &mut [u8], to: usize) -> usize
    requires { (14 < code) × (code ≤ 19) × (to + length (closing (shape_of code)) ≤ length out.old) }
    ensures next { result ≡ to + length (closing (shape_of code)) }
    ensures out { out.new ≡ over out.old to (closing (shape_of code)) }
{
    if 18 < code {
        return to;
    }
    if code < 17 {
        return to;
    }
    if code == 17 {
        put_number(out, to, 1, 255);
        return to + 1;
    }
    put_number(out, to, 2, 65535);
    to + 2
}

// A node is a leaf itself, or a variant with a leaf below it, whose tag is put here: so an optional column takes no children step, as in
// the walks that read.
fn leaf_at(
    block: &[u8],
    node: usize,
    code: u8,
    depth: usize,
    records: &[u8],
    payload: &[u8],
    own: ValueRecord,
    p: WritePos,
    out: &mut [u8],
) -> Option<(u8, u64, u64, WritePos)>
    requires { Writable block.now node depth records.now payload.now p (length out.old)
        × (own ≡ value_record_at records.now p.at) × (code ≡ (node_at block.now node).code) }
    ensures { LeadsToPut block.now node depth records.now payload.now p out.old
        out.new result }
{
    if code < 15 {
        return Some((code, own.size, own.content, p));
    }
    if 16 < code {
        return None;
    }
    let at = p.at + 1;
    let below = value_record_at(records, at);
    let tag = below.tag;
    let child = child_of(code, node_first(block, node), 0, tag);
    let leaf = node_code(block, child);
    if 14 < leaf {
        return None;
    }
    let to = put_tag(code, tag, out, p.to);
    Some((
        leaf,
        below.size,
        below.content,
        WritePos {
            at,
            from: p.from,
            to,
        },
    ))
}

// A value and all below it, at a node of its kind.
#[cycle(put_children_put_value)]
#[inline(always)]
fn put_value(
    block: &[u8],
    node: usize,
    depth: usize,
    records: &[u8],
    payload: &[u8],
    p: WritePos,
    out: &mut [u8],
) -> WritePos
    requires { Writable block.now node depth records.now payload.now p (length out.old) }
    ensures { Placed block.now node depth records.now payload.now p result out.old out.new }
{
    let own = value_record_at(records, p.at);
    let code = node_code(block, node);
    let reached = leaf_at(block, node, code, depth, records, payload, own, p, out);
    match reached {
        Some((below, size, content, from)) => { put_leaf(below, size, content, payload, from, out) }
        None => {
            // What a call lends has to lie in memory: copied here, so that a leaf is spared that.
            let nodes = block;
            let table = records;
            let store = payload;
            let start = p;
            put_children(nodes, node, code, depth, table, store, start, own.size, out)
        }
    }
}

// The children of a node, one after another, each after its tag.
#[cycle(put_children_put_value)]
fn put_children(
    block: &[u8],
    node: usize,
    code: u8,
    depth: usize,
    records: &[u8],
    payload: &[u8],
    p: WritePos,
    size: u64,
    out: &mut [u8],
) -> WritePos
    requires { Writable block.now node depth records.now payload.now p (length out.old)
        × Parted block.now node code records.now p size }
    ensures { Placed block.now node depth records.now payload.now p result out.old out.new }
{
    let first = node_first(block, node);
    let own = p.at;
    let mut q = WritePos {
        at: own + 1,
        from: p.from,
        to: p.to,
    };
    for i in 0..size {
        let at = q.at;
        let below = value_record_at(records, at);
        let child = child_of(code, first, i, below.tag);
        let start = WritePos {
            at,
            from: q.from,
            to: put_tag(code, below.tag, out, q.to),
        };
        q = put_value(block, child, depth - 1, records, payload, start, out);
    }
    WritePos {
        at: q.at,
        from: q.from,
        to: put_end(code, out, q.to),
    }
}

// A row: table tag 0 and the root's value, from position `to` of the output on; and the position after it. The root is no leaf, and the row
// enters by the children step: so the node step has one caller, is compiled into it, and a leaf costs no call.
pub fn put_row(block: &[u8], records: &[u8], payload: &[u8], out: &mut [u8], to: usize) -> usize
    requires { RowWritable block.now records.now payload.now to (length out.old) }
    ensures next { result ≡ to + length (row_bytes block.now records.now payload.now) }
    ensures out { out.new ≡ over out.old to
        (row_bytes block.now records.now payload.now) }
{
    put16(out, to, 0);
    let p = WritePos {
        at: 0,
        from: 0,
        to: to + 2,
    };
    let own = value_record_at(records, 0);
    let code = node_code(block, 0);
    let q = put_children(block, 0, code, 64, records, payload, p, own.size, out);
    q.to
}

// ---- a flat row

// A row, as `put_row` puts it, by a loop over its columns: only one that is no leaf takes a children step, and a flat row takes none.
pub fn put_flat_row(
    block: &[u8],
    records: &[u8],
    payload: &[u8],
    out: &mut [u8],
    start: usize,
) -> usize
    requires { RowWritable block.now records.now payload.now start (length out.old) }
    ensures next { result ≡ start + length (row_bytes block.now records.now payload.now) }
    ensures out { out.new ≡ over out.old start
        (row_bytes block.now records.now payload.now) }
{
    put16(out, start, 0);
    let own = value_record_at(records, 0);
    let size = own.size;
    let first = node_first(block, 0);
    let mut q = WritePos {
        at: 1,
        from: 0,
        to: start + 2,
    };
    for i in 0..size {
        let column = (first + i) as usize;
        q = put_value(block, column, 63, records, payload, q, out);
    }
    q.to
}
