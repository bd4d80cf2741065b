// References and the registry: where a table's schema stands.
ghost use Rattle.std.specs.Prelude.{◌≡◌, [], ◌+◌, ◌≤◌, length};
ghost use Rattle.rules.specs.Bytes.{part};
ghost use Rattle.rules.specs.Format.{entry_count, lookup, resolved, table_schema};
ghost use Rattle.schema.specs.Slices.{EntriesNamed, ReferencesNamed};

use record::entry::{ENTRY_SIZE, entry_at};
use record::reference::{REFERENCE_SIZE, reference_at};
use rules::{Format, Located, Reference};
use std::cmp::Ordering;

// The block of the registry's entry that has the name. The names ascend, so half of what is left is ruled out at each turn: a row of a
// table with a name costs no walk over the registry. Apart from `resolve`, so that this stays small enough to be compiled into what reads a row: a row of
// an inline table is to cost nothing for it.
#[inline(never)]
pub fn lookup(names: &[u8], registry: &[u8], start: u64, len: u64) -> Located
    requires { EntriesNamed names.now registry.now × (start + len ≤ length names.now) }
    ensures { result ≡ lookup names.now registry.now (part names.now start len) 0
        (entry_count registry.now) }
{
    // A search by hand: std's binary searches go over a slice of elements, and the registry is bytes, 16 to an entry.
    let mut low: u64 = 0;
    let mut high = (registry.len() / ENTRY_SIZE) as u64;
    while low < high {
        let middle = low + (high - low) / 2;
        let e = entry_at(registry, middle);
        let order = wire::compare(
            names,
            e.start as usize,
            e.len as usize,
            start as usize,
            len as usize,
        );
        match order {
            Ordering::Equal => {
                return Located::Block(e.first, e.count);
            }
            Ordering::Less => {
                low = middle + 1;
            }
            Ordering::Greater => {
                high = middle;
            }
        }
    }
    Located::NoEntry
}

// Where a reference's schema stands. An inline one says so itself.
pub fn resolve(names: &[u8], registry: &[u8], r: Reference) -> Located
    requires { EntriesNamed names.now registry.now × ((r.kind ≡ 0 → ⊥) → r.start + r.len ≤ length names.now) }
    ensures { result ≡ resolved names.now registry.now r }
{
    let kind = r.kind;
    let start = r.start;
    let len = r.len;
    if kind == 0 {
        return Located::Block(start, len);
    }
    lookup(names, registry, start, len)
}

// Where table t's schema stands, over a checked format. No step of it looks at the record table.
pub fn table_schema(format: &Format, t: u64) -> Located
    requires { EntriesNamed format.now.names format.now.registry × ReferencesNamed format.now.names format.now.references }
    ensures { result ≡ table_schema format.now t }
{
    let m = (format.references.len() / REFERENCE_SIZE) as u64;
    if m <= t {
        return Located::NoTable;
    }
    resolve(
        format.names,
        format.registry,
        reference_at(format.references, t),
    )
}
