// The walk that judges: a block and a value table whose form was accepted. It answers the refusal that the row meets first, or how many
// bytes the row has. A node step and a children step call each other, and depth falls.
ghost use Rattle.std.specs.Prelude.{◌≡◌, ◌+◌, ◌^◌, ◌≤◌, ◌<◌, length, Ok, Err, Some};
ghost use Rattle.rules.specs.Wire.{form};
ghost use Rattle.rules.specs.Reading.{limits};
ghost use Rattle.rules.specs.Writing.{kind_for};
ghost use Rattle.leaves.specs.Shapes.{shape_of};
ghost use Rattle.judge.specs.Judging.{leaf_of, chosen_of, count_ok, closing_bytes, Judgeable, Opened, judged_at, RowJudgeable, judged_row};

use leaves::fields::payload_of_fixed;
use record::node::{node_children, node_code, node_first};
use record::value_record::value_record_at;
use rules::{Refusal, Settings, Why};
use wire::codes::{code_width, tag_width};

// Where the walk stands: the next value record, the next payload byte, and the bytes of the row so far.
#[derive(Clone, Copy)]
pub struct JudgePos {
    pub at: usize,
    pub from: usize,
    pub bytes: u64,
}

// ---- nodes without children

// The kind of the values that a wire code takes.
fn kind_of(code: u8) -> u8
    requires { code ≤ 19 }
    ensures { result ≡ kind_for code (form code) }
{
    if code < 15 {
        return code;
    }
    if code < 17 {
        return 15;
    }
    if code < 19 {
        return 16;
    }
    17
}

// A value of a fixed width, or a blob within its type's limit.
pub fn judge_leaf(code: u8, size: u64, settings: Settings, p: JudgePos) -> Result<JudgePos, Refusal>
    requires { (code < 15) × (size < 2 ^ 32) × (p.at < 2 ^ 32) × (p.from < 2 ^ 32) × (p.bytes < 2 ^ 40) }
    ensures { result ≡ leaf_of (limits settings) code size p }
{
    let at = p.at;
    let from = p.from;
    let bytes = p.bytes;
    if code < 13 {
        let width = code_width(code);
        return Ok(JudgePos {
            at: at + 1,
            from: from + payload_of_fixed(width) as usize,
            bytes: bytes + width as u64,
        });
    }
    let limit = settings.blob_limit(code);
    if limit < size {
        return Err(Refusal {
            why: Why::BlobTooLarge {
                wire_type: code,
                length: size,
                limit,
            },
            place: at as u64,
        });
    }
    Ok(JudgePos {
        at: at + 1,
        from: from + size as usize,
        bytes: bytes + (4 + size),
    })
}

// ---- nodes with children

// The child after i others, whose record bears `tag` and is the one at `at`.
pub fn next_child(
    code: u8,
    first: u64,
    count: u64,
    i: u64,
    tag: u64,
    at: usize,
) -> Result<(usize, u64), Refusal>
    requires { (14 < code) × (code ≤ 19) × (first + count < 2 ^ 64) × (first + i < 2 ^ 64) }
    ensures { result ≡ chosen_of code first count (shape_of code) i tag at }
{
    if 18 < code {
        return Ok(((first + i) as usize, 0));
    }
    if count <= tag {
        return Err(Refusal {
            why: Why::InvalidVariantTag {
                wire_type: code,
                tag,
                children: count,
            },
            place: at as u64,
        });
    }
    Ok(((first + tag) as usize, tag_width(code) as u64))
}

// Whether a node of so many children takes a value of so many: only a tuple is asked.
fn count_fits(code: u8, size: u64, count: u64) -> bool
    ensures { result ≡ count_ok (shape_of code) size count }
{
    if code < 19 {
        return true;
    }
    size == count
}

// How many bytes stand after the last child: those of the end tag, in the repeated types.
fn closing(code: u8) -> u64
    requires { (14 < code) × (code ≤ 19) }
    ensures { result ≡ closing_bytes (shape_of code) }
{
    if code < 17 {
        return 0;
    }
    if 18 < code {
        return 0;
    }
    tag_width(code) as u64
}

// A variant with a leaf below it that fits is judged here: so an optional column takes no children step, as in the walks that read.
// Whatever else there is, and every refusal, is left to that step.
fn judge_at_once(
    block: &[u8],
    node: usize,
    code: u8,
    depth: usize,
    settings: Settings,
    records: &[u8],
    payload: &[u8],
    p: JudgePos,
    size: u64,
) -> Option<JudgePos>
    requires { Judgeable block.now node depth records.now payload.now p × Opened block.now node code records.now p size }
    ensures { (q : JudgePos) → result ≡ Some q → Ok q ≡ judged_at block.now (limits settings)
        node depth records.now payload.now p }
{
    if 16 < code {
        return None;
    }
    let first = node_first(block, node);
    let count = node_children(block, node);
    let at = p.at + 1;
    let below = value_record_at(records, at);
    let (child, width) = next_child(code, first, count, 0, below.tag, at).ok()?;
    let leaf = node_code(block, child);
    if 14 < leaf {
        return None;
    }
    if below.kind != leaf {
        return None;
    }
    let start = JudgePos {
        at,
        from: p.from,
        bytes: p.bytes + width,
    };
    judge_leaf(leaf, below.size, settings, start).ok()
}

// The node step. The kind is judged before all else.
#[cycle(judge_children_judge_value)]
fn judge_value(
    block: &[u8],
    node: usize,
    depth: usize,
    settings: Settings,
    records: &[u8],
    payload: &[u8],
    p: JudgePos,
) -> Result<JudgePos, Refusal>
    requires { Judgeable block.now node depth records.now payload.now p }
    ensures { result ≡ judged_at block.now (limits settings) node depth records.now payload.now p }
{
    let at = p.at;
    let own = value_record_at(records, at);
    let kind = own.kind;
    let size = own.size;
    let code = node_code(block, node);
    if kind != kind_of(code) {
        return Err(Refusal {
            why: Why::ValueDoesNotMatchSchema {
                wire_type: code,
                kind,
            },
            place: at as u64,
        });
    }
    // Here and below an answer is taken apart and built anew: returned as it came, it would go through memory once more.
    if code < 15 {
        let q = judge_leaf(code, size, settings, p)?;
        return Ok(q);
    }
    let now = judge_at_once(
        block, node, code, depth, settings, records, payload, p, size,
    );
    if let Some(q) = now {
        return Ok(q);
    }
    // What a call lends has to lie in memory: copied here, so that a leaf is spared that.
    let nodes = block;
    let table = records;
    let store = payload;
    let start = p;
    let q = judge_children(
        nodes, node, code, depth, settings, table, store, start, size,
    )?;
    Ok(q)
}

// The children step: one loop for tuples, variants and repeated variants, so that each step calls the other from one place only. A
// tuple's count is judged before its children, and a tag before the child that it chooses.
#[cycle(judge_children_judge_value)]
fn judge_children(
    block: &[u8],
    node: usize,
    code: u8,
    depth: usize,
    settings: Settings,
    records: &[u8],
    payload: &[u8],
    p: JudgePos,
    size: u64,
) -> Result<JudgePos, Refusal>
    requires { Judgeable block.now node depth records.now payload.now p × Opened block.now node code records.now p size }
    ensures { result ≡ judged_at block.now (limits settings) node depth records.now payload.now p }
{
    let first = node_first(block, node);
    let count = node_children(block, node);
    let own = p.at;
    if !count_fits(code, size, count) {
        return Err(Refusal {
            why: Why::TupleLength {
                expected: count,
                actual: size,
            },
            place: own as u64,
        });
    }
    let mut q = JudgePos {
        at: own + 1,
        from: p.from,
        bytes: p.bytes,
    };
    for i in 0..size {
        let at = q.at;
        let below = value_record_at(records, at);
        let (child, width) = next_child(code, first, count, i, below.tag, at)?;
        let start = JudgePos {
            at,
            from: q.from,
            bytes: q.bytes + width,
        };
        let r = judge_value(block, child, depth - 1, settings, records, payload, start)?;
        q = r;
    }
    Ok(JudgePos {
        at: q.at,
        from: q.from,
        bytes: q.bytes + closing(code),
    })
}

// A row: its table's tag, and the value of the whole table at the root. The root is no leaf, and the row enters by the children step: so
// the node step has one caller, is compiled into it, and a leaf costs no call.
pub fn judge_row(
    block: &[u8],
    settings: Settings,
    records: &[u8],
    payload: &[u8],
) -> Result<JudgePos, Refusal>
    requires { RowJudgeable block.now records.now payload.now }
    ensures { result ≡ judged_row block.now (limits settings) records.now payload.now }
{
    let p = JudgePos {
        at: 0,
        from: 0,
        bytes: 2,
    };
    let own = value_record_at(records, 0);
    let kind = own.kind;
    let code = node_code(block, 0);
    if kind != kind_of(code) {
        return Err(Refusal {
            why: Why::ValueDoesNotMatchSchema {
                wire_type: code,
                kind,
            },
            place: 0,
        });
    }
    let q = judge_children(block, 0, code, 64, settings, records, payload, p, own.size)?;
    Ok(q)
}
