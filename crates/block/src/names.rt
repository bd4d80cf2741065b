// The names of a block's records: well-formed UTF-8 (33).
ghost use Rattle.std.specs.Prelude.{◌≡◌, true, ◌+◌, ◌≤◌, length};
ghost use Rattle.rules.specs.Block.{name_in, is_name_utf8, names_utf8, block_ok};

use record::node::{NODE_SIZE, node_at};
use rules::Node;
use utf8::is_utf8;

// A record without a name passes.
fn name_utf8(names: &[u8], n: Node) -> bool
    requires { n.named ≡ 1 → n.start + n.len ≤ length names.now }
    ensures { result ≡ is_name_utf8 (name_in names.now n) }
{
    let named = n.named;
    let start = n.start;
    let len = n.len;
    named != 1 || is_utf8(names, start as usize, len as usize)
}

// Every name of a block that has the form. One that several records share is looked at for each of them.
pub fn names_utf8(s: &[u8], names: &[u8]) -> bool
    requires { block_ok s.now (length names.now) ≡ true }
    ensures { result ≡ names_utf8 s.now names.now }
{
    let m = (s.len() / NODE_SIZE) as u64;
    (0..m).all(|i| name_utf8(names, node_at(s, i)))
}
