// The walk over a table's block and the input: what skip answers. A node step and a children step call each other, and
// depth falls.
ghost use Rattle.std.specs.Prelude.{◌≡◌, ◌+◌, ◌-◌, ◌^◌, ◌≤◌, ◌<◌, length, Err};
ghost use Rattle.rules.specs.Walk.{walk};
ghost use Rattle.rules.specs.Reading.{limits, start};
ghost use Rattle.leaves.specs.Shapes.{shape_of};
ghost use Rattle.read.specs.Children.{picked};
ghost use Rattle.read.specs.Skim.{skimmed, skim_node, skim};
ghost use Rattle.read.specs.Ready.{HasNode, SoundNodes, Coded, Ready, Rooted};
ghost use Rattle.read.specs.Leads.{LeadsToSkip};

use leaves::budget::RowBudget;
use leaves::fields::{ends, read_tag};
use leaves::leaf::{SkipPos, skip_leaf};
use record::node::{node_children, node_code, node_first};
use rules::{Refusal, Settings, Why};

// A node's next child and where it starts, or where the children end.
#[derive(Clone, Copy)]
pub enum Next {
    Child(usize, usize),
    End(usize),
}

// ---- nodes with children

// The child after i others. A tuple's children come in order; else a tag names the child, or ends the children.
fn next_child(
    code: u8,
    first: u64,
    count: u64,
    i: u64,
    input: &[u8],
    at: usize,
) -> Result<Next, Refusal>
    requires { (14 < code) × (code ≤ 19) × (first + count < 2 ^ 64) × (at ≤ length input.now) }
    ensures { result ≡ picked code first count input.now (shape_of code) i at }
{
    if 18 < code {
        if count <= i {
            return Ok(Next::End(at));
        }
        let child = first + i;
        return Ok(Next::Child(child as usize, at));
    }
    let t = read_tag(code, input, at);
    // Document 01 names this form for a tag, a length and a child: the answer is taken apart at once and its refusal handed up.
    let Ok((tag, next)) = t else {
        return Err(t.unwrap_err());
    };
    if ends(code, tag) {
        return Ok(Next::End(next));
    }
    if count <= tag {
        return Err(Refusal {
            why: Why::InvalidVariantTag {
                wire_type: code,
                tag,
                children: count,
            },
            place: at as u64,
        });
    }
    let child = first + tag;
    Ok(Next::Child(child as usize, next))
}

// A node that is paid for is a leaf itself, or a variant whose tag names one, which is paid for here: so an optional column takes no
// children step. Whatever else a tag says, and every refusal, is left to that step.
fn leaf_at(
    block: &[u8],
    node: usize,
    code: u8,
    depth: usize,
    input: &[u8],
    p: SkipPos,
    charge: u64,
) -> Option<(u8, SkipPos)>
    requires { Coded block.now node code × Ready input.now charge p }
    ensures { LeadsToSkip block.now input.now
        (skim block.now input.now charge (depth - 1)) node p result }
{
    if code < 15 {
        return Some((code, p));
    }
    if 16 < code {
        return None;
    }
    if depth < 2 {
        return None;
    }
    let at = p.at;
    let budget = p.budget;
    let (tag, start) = read_tag(code, input, at).ok()?;
    let first = node_first(block, node);
    let count = node_children(block, node);
    if count <= tag {
        return None;
    }
    let child = (first + tag) as usize;
    let below = node_code(block, child);
    if 14 < below {
        return None;
    }
    let rest = budget.charge(charge, start as u64).ok()?;
    Some((
        below,
        SkipPos {
            at: start,
            budget: rest,
            records: p.records + 1,
            payload: p.payload,
        },
    ))
}

// The node step. Leaf or not, a node is charged before any byte of it is looked at.
#[cycle(skip_children_skip_value)]
fn skip_value(
    block: &[u8],
    node: usize,
    depth: usize,
    input: &[u8],
    p: SkipPos,
    charge: u64,
) -> Result<SkipPos, Refusal>
    requires { SoundNodes block.now × HasNode block.now node × Ready input.now charge p }
    ensures { result ≡ skim block.now input.now charge depth node p }
{
    if depth == 0 {
        return Err(Refusal::TOO_DEEP);
    }
    let at = p.at;
    let budget = p.budget;
    let rest = budget.charge(charge, at as u64)?;
    let q = SkipPos {
        at,
        budget: rest,
        records: p.records + 1,
        payload: p.payload,
    };
    let code = node_code(block, node);
    let reached = leaf_at(block, node, code, depth, input, q, charge);
    match reached {
        Some((below, leaf)) => {
            // Here and below an answer is taken apart and built anew: returned as it came, it would go through memory once more.
            let r = skip_leaf(below, input, leaf)?;
            Ok(r)
        }
        None => {
            // What a call lends has to lie in memory: copied here, so that a leaf is spared that.
            let records = block;
            let bytes = input;
            let from = q;
            let r = skip_children(records, code, node, depth, bytes, from, charge)?;
            Ok(r)
        }
    }
}

// The children step: one loop for tuples, variants and repeated variants, so that each step calls the other from one
// place only.
#[cycle(skip_children_skip_value)]
fn skip_children(
    block: &[u8],
    code: u8,
    node: usize,
    depth: usize,
    input: &[u8],
    p: SkipPos,
    charge: u64,
) -> Result<SkipPos, Refusal>
    requires { (0 < depth) × Coded block.now node code × (14 < code) × Ready input.now charge p }
    ensures { result ≡ skim_node block.now input.now
        (skim block.now input.now charge (depth - 1)) node p }
{
    let first = node_first(block, node);
    let count = node_children(block, node);
    let mut q = p;
    let mut i: u64 = 0;
    // A `loop`: an end tag may end the children, so that no count does.
    loop {
        let at = q.at;
        let budget = q.budget;
        let next = next_child(code, first, count, i, input, at)?;
        match next {
            Next::Child(child, start) => {
                let from = SkipPos {
                    at: start,
                    budget,
                    records: q.records,
                    payload: q.payload,
                };
                let s = skip_value(block, child, depth - 1, input, from, charge);
                let Ok(r) = s else {
                    return Err(s.unwrap_err());
                };
                if code < 17 {
                    return Ok(r);
                }
                q = r;
                i += 1;
            }
            Next::End(end) => {
                return Ok(SkipPos {
                    at: end,
                    budget,
                    records: q.records,
                    payload: q.payload,
                });
            }
        }
    }
}

// A row's value: the root of its table's block, from a position, with the whole allowance. The root is no leaf, and the row enters by
// the children step: so the node step has one caller, is compiled into it, and a leaf costs no call.
pub fn skip_root(
    block: &[u8],
    input: &[u8],
    at: usize,
    settings: Settings,
) -> Result<SkipPos, Refusal>
    requires { Rooted block.now input.now settings at }
    ensures { result ≡ skimmed (limits settings) (walk block.now input.now (limits settings) 64 0
        (start (limits settings) at)) }
{
    let charge = settings.node_charge;
    let budget = RowBudget::new(
        settings.max_string32_bytes,
        settings.max_yson32_bytes,
        settings.max_row_bytes,
    );
    let rest = budget.charge(charge, at as u64)?;
    let p = SkipPos {
        at,
        budget: rest,
        records: 1,
        payload: 0,
    };
    let q = skip_children(block, node_code(block, 0), 0, 64, input, p, charge)?;
    Ok(q)
}
