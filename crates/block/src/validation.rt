// The schema rules on a block, in the Rust's order (4, 5), and a table's root and names (8, 9, 10).
ghost use Rattle.std.specs.Prelude.{◌≡◌, ◌+◌, ◌^◌, ◌≤◌, ◌<◌, length};
ghost use Rattle.rules.specs.Wire.{form, maximum};
ghost use Rattle.rules.specs.Block.{node_size, NodeIn, records, Closed};
ghost use Rattle.rules.specs.Refusals.{in_order};
ghost use Rattle.rules.specs.SchemaRules.{node_rule, rule_at, schema_rule, not_tuple, root_rule, name_rule, table_rule};
ghost use Rattle.block.specs.Passing.{passing};

use super::form::node_ok;
use record::node::{NODE_SIZE, node_at};
use rules::{Children, Node, Purpose, Refusal, Why};

// What the rules say of a node by itself.
fn node_rule(place: u64, n: Node) -> Result<(), Refusal>
    ensures { result ≡ node_rule place n (maximum (form n.code)) }
{
    let code = n.code;
    let children = n.children;
    let most = wire::maximum_of(code);
    match most {
        Children::Zero => {
            if children == 0 {
                return Ok(());
            }
            Err(Refusal {
                why: Why::UnexpectedChildren {
                    wire_type: code,
                    count: children,
                },
                place,
            })
        }
        Children::UpTo(maximum) => {
            if children <= maximum {
                return Ok(());
            }
            Err(Refusal {
                why: Why::TooManyChildren {
                    wire_type: code,
                    count: children,
                    maximum,
                },
                place,
            })
        }
        Children::Any => Ok(()),
        Children::Unknown => Err(Refusal::BAD_SCHEMA_TABLE),
    }
}

// The first refusal in level order: one loop over the records, where preorder takes a call for each.
pub fn level_rule(s: &[u8], base: u64) -> Result<(), Refusal>
    requires { base + records s.now < 2 ^ 64 }
    ensures { result ≡ in_order (rule_at s.now base) 0 (records s.now) }
{
    let m = (s.len() / NODE_SIZE) as u64;
    for i in 0..m {
        node_rule(base + i, node_at(s, i))?;
    }
    Ok(())
}

// Form and rules in one loop over the records: whether both pass, and not which is refused first.
pub fn passes(s: &[u8], store: u64, base: u64) -> bool
    requires { base + records s.now < 2 ^ 64 }
    ensures { result ≡ passing s.now store base }
{
    if s.len() % NODE_SIZE != 0 {
        return false;
    }
    let m = (s.len() / NODE_SIZE) as u64;
    if 131072 < m {
        return false;
    }
    let mut next = 1;
    for i in 0..m {
        let node = node_at(s, i);
        if !node_ok(node, store, i, next) {
            return false;
        }
        let own = node_rule(base + i, node);
        let Ok(()) = own else {
            return false;
        };
        let children = node.children;
        next += children;
    }
    m == next
}

// The first refusal in preorder: a node before its children, its children in order. `base` is the block's first record in
// the table, so that a place is a record of the table.
pub fn validate(s: &[u8], base: u64, depth: u64, i: u64) -> Result<(), Refusal>
    requires { Closed s.now × NodeIn i (length s.now) × (base + records s.now < 2 ^ 64) }
    ensures { result ≡ schema_rule s.now base depth i }
{
    if depth == 0 {
        return Err(Refusal::TOO_DEEP);
    }
    let n = node_at(s, i);
    node_rule(base + i, n)?;
    let first = n.first;
    let children = n.children;
    for k in 0..children {
        // Copied for the call: so it is the copy that has to lie in memory.
        let block = s;
        validate(block, base, depth - 1, first + k)?;
    }
    Ok(())
}

// A root that is no tuple has a number of its own for the encoder.
fn not_tuple(purpose: Purpose, found: u8, place: u64) -> Refusal
    ensures { result ≡ not_tuple purpose found place }
{
    match purpose {
        Purpose::Format => Refusal {
            why: Why::TableSchemaRootMustBeTuple { found },
            place,
        },
        Purpose::Encoder => Refusal {
            why: Why::TableSchemaMustBeTuple { found },
            place,
        },
    }
}

fn root_rule(purpose: Purpose, place: u64, n: Node) -> Result<(), Refusal>
    ensures { result ≡ root_rule purpose place n }
{
    let code = n.code;
    if code == 19 {
        return Ok(());
    }
    Err(not_tuple(purpose, code, place))
}

// A column has a name, and one that is not empty.
fn name_rule(place: u64, index: u64, n: Node) -> Result<(), Refusal>
    ensures { result ≡ name_rule place index n }
{
    let named = n.named;
    let len = n.len;
    if named == 1 && 0 < len {
        return Ok(());
    }
    Err(Refusal {
        why: Why::TableSchemaChildMissingName { index },
        place,
    })
}

// A table's root is a tuple, and each of its direct children has a name.
pub fn check_root(s: &[u8], base: u64, purpose: Purpose) -> Result<(), Refusal>
    requires { Closed s.now × (node_size ≤ length s.now) × (base + records s.now < 2 ^ 64) }
    ensures { result ≡ table_rule purpose s.now base }
{
    let root = node_at(s, 0);
    root_rule(purpose, base, root)?;
    let first = root.first;
    let children = root.children;
    for k in 0..children {
        let n = node_at(s, first + k);
        name_rule(base + (first + k), k, n)?;
    }
    Ok(())
}
