// Table references: how many bytes one has, and how one is read. No other line of code knows it.
ghost use Rattle.std.specs.Prelude.{◌≡◌, length};
ghost use Rattle.rules.specs.Format.{ReferenceIn, reference_at};

use rules::Reference;
use wire::{field, u32_at};

// The bytes of a table reference.
pub const REFERENCE_SIZE: usize = 16;

// Reference i.
pub fn reference_at(s: &[u8], i: u64) -> Reference
    requires { ReferenceIn i (length s.now) }
    ensures { result ≡ reference_at s.now i }
{
    let at = i as usize * REFERENCE_SIZE;
    Reference {
        kind: s[at],
        spare: field(s, at + 1, 3),
        start: u32_at(s, at + 4),
        len: u32_at(s, at + 8),
        rest: u32_at(s, at + 12),
    }
}
