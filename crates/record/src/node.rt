// Schema records: how many bytes one has, and how one is read, whole or a field of it. No other line of code knows it.
ghost use Rattle.std.specs.Prelude.{◌≡◌, length};
ghost use Rattle.rules.specs.Block.{NodeIn, node_at};

use rules::Node;
use wire::{u16_at, u32_at};

// The bytes of a schema record.
pub const NODE_SIZE: usize = 16;

// The record of node i.
pub fn node_at(s: &[u8], i: u64) -> Node
    requires { NodeIn i (length s.now) }
    ensures { result ≡ node_at s.now i }
{
    let at = i as usize * NODE_SIZE;
    Node {
        code: s[at],
        named: s[at + 1],
        len: u16_at(s, at + 2),
        start: u32_at(s, at + 4),
        first: u32_at(s, at + 8),
        children: u32_at(s, at + 12),
    }
}

// Its fields that the walks over a row need, each by itself.
pub fn node_code(s: &[u8], i: usize) -> u8
    requires { NodeIn i (length s.now) }
    ensures { result ≡ (node_at s.now i).code }
{
    s[i * NODE_SIZE]
}

pub fn node_first(s: &[u8], i: usize) -> u64
    requires { NodeIn i (length s.now) }
    ensures { result ≡ (node_at s.now i).first }
{
    u32_at(s, i * NODE_SIZE + 8)
}

pub fn node_children(s: &[u8], i: usize) -> u64
    requires { NodeIn i (length s.now) }
    ensures { result ≡ (node_at s.now i).children }
{
    u32_at(s, i * NODE_SIZE + 12)
}
