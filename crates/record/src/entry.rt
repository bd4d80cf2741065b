// Registry entries: how many bytes one has, and how one is read. No other line of code knows it.
ghost use Rattle.std.specs.Prelude.{◌≡◌, length};
ghost use Rattle.rules.specs.Format.{EntryIn, entry_at};

use rules::Entry;
use wire::u32_at;

// The bytes of a registry entry.
pub const ENTRY_SIZE: usize = 16;

// Entry i.
pub fn entry_at(s: &[u8], i: u64) -> Entry
    requires { EntryIn i (length s.now) }
    ensures { result ≡ entry_at s.now i }
{
    let at = i as usize * ENTRY_SIZE;
    Entry {
        start: u32_at(s, at),
        len: u32_at(s, at + 4),
        first: u32_at(s, at + 8),
        count: u32_at(s, at + 12),
    }
}
