// The flat form of a schema block (2), and its depth (3).
ghost use Rattle.std.specs.Prelude.{◌≡◌, ◌+◌};
ghost use Rattle.rules.specs.Block.{span_ok, name_ok, children_ok, record_ok, block_ok, Ordered, depth_of};

use record::node::{NODE_SIZE, node_at};
use rules::Node;

// A span lies in what has so many bytes or records. The sum is not made, since it could wrap: the length is compared with
// what is left behind the start.
pub fn span_ok(start: u64, len: u64, size: u64) -> bool
    ensures { result ≡ span_ok start len size }
{
    start <= size && len <= size - start
}

// (Tests one after another here and in the two functions below, and no expression of them: each record of a format goes through them.)
// An unnamed record has no span, and a named one's lies in the store.
fn name_ok(n: Node, store: u64) -> bool
    ensures { result ≡ name_ok n store }
{
    let named = n.named;
    let len = n.len;
    let start = n.start;
    if named == 0 {
        if len == 0 {
            return start == 0;
        }
        return false;
    }
    if named == 1 {
        return span_ok(start, len, store);
    }
    false
}

// `next` is the first child that level order gives to the next node with children.
fn children_ok(n: Node, i: u64, next: u64) -> bool
    ensures { result ≡ children_ok n i next }
{
    let first = n.first;
    let children = n.children;
    if children == 0 {
        return first == 0;
    }
    if first == next {
        return i < first;
    }
    false
}

// One record.
pub fn node_ok(n: Node, store: u64, i: u64, next: u64) -> bool
    ensures { result ≡ record_ok n store i next }
{
    let code = n.code;
    if 19 < code {
        return false;
    }
    if name_ok(n, store) {
        return children_ok(n, i, next);
    }
    false
}

// The block has the form of a schema, whose names lie in a store of so many bytes. The bound on the records comes first:
// below it no sum of child counts wraps.
pub fn block_ok(s: &[u8], store: u64) -> bool
    ensures { result ≡ block_ok s.now store }
{
    if s.len() % NODE_SIZE != 0 {
        return false;
    }
    let m = (s.len() / NODE_SIZE) as u64;
    if 131072 < m {
        return false;
    }
    let mut next = 1;
    for i in 0..m {
        let n = node_at(s, i);
        if !node_ok(n, store, i, next) {
            return false;
        }
        let children = n.children;
        next += children;
    }
    m == next
}

// The depth of a block's schema. `edge` is where the level that the pass is in ends, and `next` where the next one will.
pub fn depth_of(s: &[u8]) -> u64
    requires { Ordered s.now }
    ensures { result ≡ depth_of s.now }
{
    let m = (s.len() / NODE_SIZE) as u64;
    let mut next = 1;
    let mut edge = 0;
    let mut depth = 0;
    for i in 0..m {
        if i == edge {
            depth += 1;
            edge = next;
        }
        let n = node_at(s, i);
        let children = n.children;
        next += children;
    }
    depth
}
