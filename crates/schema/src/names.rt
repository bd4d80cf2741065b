// The third pass: all names are well-formed UTF-8 (33), over forms that were checked.
ghost use Rattle.std.specs.Prelude.{◌≡◌, true, [], ◌+◌, ◌≤◌, length, eqb};
ghost use Rattle.rules.specs.Choice.{pick, ◌and◌};
ghost use Rattle.rules.specs.Bytes.{part};
ghost use Rattle.rules.specs.Utf8.{is_utf8};
ghost use Rattle.rules.specs.Format.{block_form_ok, block_utf8, reference_ok, forms_ok, format_utf8};
ghost use Rattle.schema.specs.Slices.{slices, entries_ok, references_ok, entries_utf8, references_utf8};

use block::table::block_utf8;
use record::entry::{ENTRY_SIZE, entry_at};
use record::reference::{REFERENCE_SIZE, reference_at};
use rules::{Entry, Format, Reference};
use utf8::{is_utf8, short_ascii};

// An entry's own name, and those of its block, whether or not a table refers to it.
fn entry_utf8(table: &[u8], names: &[u8], e: Entry) -> bool
    requires { (e.start + e.len ≤ length names.now) × (block_form_ok table.now (length names.now) e.first e.count ≡ true) }
    ensures { result ≡ is_utf8 (part names.now e.start e.len)
        and block_utf8 table.now names.now e.first e.count }
{
    is_utf8(names, e.start as usize, e.len as usize) && block_utf8(table, names, e.first, e.count)
}

fn entries_utf8(table: &[u8], names: &[u8], registry: &[u8]) -> bool
    requires { entries_ok table.now names.now registry.now ≡ true }
    ensures { result ≡ entries_utf8 table.now names.now registry.now }
{
    let m = (registry.len() / ENTRY_SIZE) as u64;
    (0..m).all(|j| entry_utf8(table, names, entry_at(registry, j)))
}

// An inline block's names, or the name that is referred to, whether or not an entry has it.
fn reference_utf8(table: &[u8], names: &[u8], r: Reference) -> bool
    requires { reference_ok (slices table.now names.now [] []) r ≡ true }
    ensures { result ≡ pick (eqb r.kind 0) (block_utf8 table.now names.now r.start r.len)
        (is_utf8 (part names.now r.start r.len)) }
{
    let kind = r.kind;
    let start = r.start;
    let len = r.len;
    if kind == 0 {
        block_utf8(table, names, start, len)
    } else {
        is_utf8(names, start as usize, len as usize)
    }
}

fn references_utf8(table: &[u8], names: &[u8], references: &[u8]) -> bool
    requires { references_ok table.now names.now references.now ≡ true }
    ensures { result ≡ references_utf8 table.now names.now references.now }
{
    let m = (references.len() / REFERENCE_SIZE) as u64;
    (0..m).all(|t| reference_utf8(table, names, reference_at(references, t)))
}

// A store of no more bytes than the record table, all of them ASCII, needs no look at each name.
pub fn format_utf8(format: &Format) -> bool
    requires { forms_ok format.now ≡ true }
    ensures { result ≡ format_utf8 format.now }
{
    short_ascii(format.names, format.table.len())
        || (entries_utf8(format.table, format.names, format.registry)
            && references_utf8(format.table, format.names, format.references))
}
