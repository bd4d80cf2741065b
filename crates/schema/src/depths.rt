// The second pass: all depths (3), over forms that were checked.
ghost use Rattle.std.specs.Prelude.{◌≡◌, true, [], eqb};
ghost use Rattle.rules.specs.Choice.{pick};
ghost use Rattle.rules.specs.Format.{block_depth_ok, depths_ok};
ghost use Rattle.block.specs.Sound.{SoundBlock};
ghost use Rattle.schema.specs.Slices.{entries_shallow, references_shallow, EntriesSound, InlineSound};

use block::table::block_depth_ok;
use record::entry::{ENTRY_SIZE, entry_at};
use record::reference::{REFERENCE_SIZE, reference_at};
use rules::{Format, Reference};

fn entries_shallow(table: &[u8], registry: &[u8]) -> bool
    requires { EntriesSound table.now registry.now }
    ensures { result ≡ entries_shallow table.now registry.now }
{
    let m = (registry.len() / ENTRY_SIZE) as u64;
    (0..m).all(|j| {
        let e = entry_at(registry, j);
        block_depth_ok(table, e.first, e.count)
    })
}

// A registry's schema was looked at with the registry.
fn reference_shallow(table: &[u8], r: Reference) -> bool
    requires { r.kind ≡ 0 → SoundBlock table.now r.start r.len }
    ensures { result ≡ pick (eqb r.kind 0) (block_depth_ok table.now r.start r.len) true }
{
    let kind = r.kind;
    kind != 0 || block_depth_ok(table, r.start, r.len)
}

fn references_shallow(table: &[u8], references: &[u8]) -> bool
    requires { InlineSound table.now references.now }
    ensures { result ≡ references_shallow table.now references.now }
{
    let m = (references.len() / REFERENCE_SIZE) as u64;
    (0..m).all(|t| reference_shallow(table, reference_at(references, t)))
}

pub fn depths_ok(format: &Format) -> bool
    requires { EntriesSound format.now.table format.now.registry × InlineSound format.now.table format.now.references }
    ensures { result ≡ depths_ok format.now }
{
    entries_shallow(format.table, format.registry)
        && references_shallow(format.table, format.references)
}
