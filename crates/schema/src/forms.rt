// The first pass: all flat forms (2).
ghost use Rattle.std.specs.Prelude.{◌≡◌, true, [], ℕ, ◌+◌, ◌≤◌, length};
ghost use Rattle.rules.specs.Choice.{all};
ghost use Rattle.rules.specs.Bytes.{is_less};
ghost use Rattle.rules.specs.Format.{EntryIn, entry_at, reference_ok, ascending, entry_ok, forms_ok};
ghost use Rattle.schema.specs.Slices.{slices, entries_ok, references_ok};

use block::form::span_ok;
use block::table::block_form_ok;
use record::entry::{ENTRY_SIZE, entry_at};
use record::node::NODE_SIZE;
use record::reference::{REFERENCE_SIZE, reference_at};
use rules::{Format, Reference};
use std::cmp::Ordering;

fn is_less(o: Ordering) -> bool
    ensures { result ≡ is_less o }
{
    o.is_lt()
}

// Entry j's name is greater than the one before it.
fn ascending(names: &[u8], registry: &[u8], j: u64) -> bool
    requires { EntryIn j (length registry.now) × ((i : ℕ) → i ≤ j
        → (entry_at registry.now i).start + (entry_at registry.now i).len ≤ length names.now) }
    ensures { result ≡ ascending (slices [] names.now [] registry.now) j }
{
    if j == 0 {
        return true;
    }
    let last = entry_at(registry, j - 1);
    let e = entry_at(registry, j);
    is_less(wire::compare(
        names,
        last.start as usize,
        last.len as usize,
        e.start as usize,
        e.len as usize,
    ))
}

// The entries before it have the form: their names can be read.
fn entry_ok(table: &[u8], names: &[u8], registry: &[u8], j: u64) -> bool
    requires { EntryIn j (length registry.now) × (all (entry_ok (slices table.now names.now [] registry.now)) j ≡ true) }
    ensures { result ≡ entry_ok (slices table.now names.now [] registry.now) j }
{
    let store = names.len() as u64;
    let e = entry_at(registry, j);
    span_ok(e.start, e.len, store)
        && block_form_ok(table, store, e.first, e.count)
        && ascending(names, registry, j)
}

fn entries_ok(table: &[u8], names: &[u8], registry: &[u8]) -> bool
    ensures { result ≡ entries_ok table.now names.now registry.now }
{
    let m = (registry.len() / ENTRY_SIZE) as u64;
    // A loop and no `all`: an entry may be looked at only where those before it have passed, and a closure is not told so.
    for j in 0..m {
        if !entry_ok(table, names, registry, j) {
            return false;
        }
    }
    true
}

fn reference_ok(table: &[u8], names: &[u8], r: Reference) -> bool
    ensures { result ≡ reference_ok (slices table.now names.now [] []) r }
{
    let store = names.len() as u64;
    let kind = r.kind;
    let start = r.start;
    let len = r.len;
    if r.spare != 0 || r.rest != 0 {
        return false;
    }
    match kind {
        0 => block_form_ok(table, store, start, len),
        1 => span_ok(start, len, store),
        _ => false,
    }
}

fn references_ok(table: &[u8], names: &[u8], references: &[u8]) -> bool
    ensures { result ≡ references_ok table.now names.now references.now }
{
    let m = (references.len() / REFERENCE_SIZE) as u64;
    (0..m).all(|t| reference_ok(table, names, reference_at(references, t)))
}

pub fn forms_ok(format: &Format) -> bool
    ensures { result ≡ forms_ok format.now }
{
    format.table.len() % NODE_SIZE == 0
        && format.references.len() % REFERENCE_SIZE == 0
        && format.registry.len() % ENTRY_SIZE == 0
        && entries_ok(format.table, format.names, format.registry)
        && references_ok(format.table, format.names, format.references)
}
