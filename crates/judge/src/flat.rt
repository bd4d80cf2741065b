// A flat row, each of whose columns is a scalar, optional or not: the form of its value table and the row that it makes, in one loop over the
// columns. It says what the row takes where all is well, and nothing else: every other row, and whatever is wrong, is left to the check of
// the table and to the walk that judges.
ghost use Rattle.std.specs.Prelude.{◌≡◌, true, ◌+◌, ◌^◌, ◌≤◌, ◌<◌, length, Ok, Some};
ghost use Rattle.rules.specs.Reading.{limits};
ghost use Rattle.rules.specs.ValueRecord.{ValueRecordIn};
ghost use Rattle.value.specs.Records.{value_record_ok};
ghost use Rattle.judge.specs.Judging.{leaf_of};
ghost use Rattle.judge.specs.Flat.{Flat, Seen, LeadsToLeaf, RowFlat, RowSeen};

use super::walk::{JudgePos, judge_leaf, next_child};
use record::node::{node_children, node_code, node_first};
use record::value_record::{records_in, value_record_at, whole_records};
use rules::{Settings, ValueRecord};
use value::record_ok;

// A scalar: its record is right where it stands, of the kind that the code takes, and within its limit.
fn leaf_fits(
    code: u8,
    own: ValueRecord,
    settings: Settings,
    store: usize,
    tagged: bool,
    p: JudgePos,
) -> Option<JudgePos>
    requires { (code < 15) × (store < 2 ^ 32) × (p.at < 2 ^ 32) × (p.from ≤ store) × (p.bytes < 2 ^ 40) }
    ensures { (q : JudgePos) → result ≡ Some q → (value_record_ok own tagged p.from store ≡ true) × (own.kind ≡ code)
        × (Ok q ≡ leaf_of (limits settings) code own.size p) × (q.from ≡ p.from + own.size) }
{
    if own.kind != code {
        return None;
    }
    if !record_ok(own, tagged, p.from, store) {
        return None;
    }
    let q = judge_leaf(code, own.size, settings, p).ok()?;
    if q.from != p.from + own.size as usize {
        return None;
    }
    Some(q)
}

// The leaf that a column comes to: its code, whether its record may bear a tag, and where it is judged from. A column is a leaf itself, or a
// variant whose tag names one.
fn column_leaf(
    block: &[u8],
    node: usize,
    records: &[u8],
    payload: &[u8],
    p: JudgePos,
) -> Option<(u8, bool, JudgePos)>
    requires { Flat block.now node records.now payload.now p × ValueRecordIn p.at (length records.now) }
    ensures { LeadsToLeaf block.now node records.now payload.now p result }
{
    let code = node_code(block, node);
    if code < 15 {
        return Some((code, false, p));
    }
    if 16 < code {
        return None;
    }
    let own = value_record_at(records, p.at);
    if own.kind != 15 {
        return None;
    }
    if !record_ok(own, false, p.from, payload.len()) {
        return None;
    }
    let at = p.at + 1;
    if records_in(records.len() as u64) <= at as u64 {
        return None;
    }
    let below = value_record_at(records, at);
    let first = node_first(block, node);
    let count = node_children(block, node);
    let (child, width) = next_child(code, first, count, 0, below.tag, at).ok()?;
    let leaf = node_code(block, child);
    if 14 < leaf {
        return None;
    }
    Some((
        leaf,
        true,
        JudgePos {
            at,
            from: p.from,
            bytes: p.bytes + width,
        },
    ))
}

// A column.
fn column_fits(
    block: &[u8],
    node: usize,
    settings: Settings,
    records: &[u8],
    payload: &[u8],
    p: JudgePos,
) -> Option<JudgePos>
    requires { Flat block.now node records.now payload.now p }
    ensures { (q : JudgePos) → result ≡ Some q → Seen block.now node records.now
        payload.now (limits settings) p q }
{
    if records_in(records.len() as u64) <= p.at as u64 {
        return None;
    }
    let (code, tagged, start) = column_leaf(block, node, records, payload, p)?;
    let own = value_record_at(records, start.at);
    leaf_fits(code, own, settings, payload.len(), tagged, start)
}

// The row: its root's record, its columns, and nothing after them.
pub fn flat_row(
    block: &[u8],
    settings: Settings,
    records: &[u8],
    payload: &[u8],
) -> Option<JudgePos>
    requires { RowFlat block.now records.now payload.now }
    ensures { (q : JudgePos) → result ≡ Some q → RowSeen block.now (limits settings) records.now
        payload.now q }
{
    let bytes = records.len() as u64;
    if !whole_records(bytes) {
        return None;
    }
    let total = records_in(bytes);
    if total == 0 {
        return None;
    }
    let own = value_record_at(records, 0);
    if own.kind != 17 {
        return None;
    }
    if !record_ok(own, false, 0, payload.len()) {
        return None;
    }
    let first = node_first(block, 0);
    let count = node_children(block, 0);
    if own.size != count {
        return None;
    }
    let mut q = JudgePos {
        at: 1,
        from: 0,
        bytes: 2,
    };
    for i in 0..count {
        let column = (first + i) as usize;
        let r = column_fits(block, column, settings, records, payload, q)?;
        q = r;
    }
    if q.at as u64 != total {
        return None;
    }
    if q.from != payload.len() {
        return None;
    }
    Some(q)
}
