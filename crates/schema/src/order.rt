// The fourth pass: the rules in the Rust's order, over forms that were checked.
ghost use Rattle.std.specs.Prelude.{◌≡◌, [], ℕ, ◌<◌};
ghost use Rattle.rules.specs.Refusals.{in_order};
ghost use Rattle.rules.specs.Format.{reference_count, inline_rule, root_of, reference_rule, rules_order};
ghost use Rattle.block.specs.Sound.{SoundBlock};
ghost use Rattle.schema.specs.Slices.{slices, entries_rule, EntriesSound, Forms};

use super::format::resolve;
use block::table::{block_root, block_rule};
use record::entry::{ENTRY_SIZE, entry_at};
use record::reference::{REFERENCE_SIZE, reference_at};
use rules::{Format, Located, Purpose, Reference, Refusal, Why};

fn entries_rule(table: &[u8], registry: &[u8]) -> Result<(), Refusal>
    requires { EntriesSound table.now registry.now }
    ensures { result ≡ entries_rule table.now registry.now }
{
    let m = (registry.len() / ENTRY_SIZE) as u64;
    for j in 0..m {
        let e = entry_at(registry, j);
        block_rule(table, e.first, e.count)?;
    }
    Ok(())
}

// A registry's schema was checked with the registry.
fn inline_rule(table: &[u8], r: Reference) -> Result<(), Refusal>
    requires { r.kind ≡ 0 → SoundBlock table.now r.start r.len }
    ensures { result ≡ inline_rule (slices table.now [] [] []) r }
{
    let kind = r.kind;
    if kind == 0 {
        return block_rule(table, r.start, r.len);
    }
    Ok(())
}

// Table t's root and names, in the block that was found for it.
fn root_of(table: &[u8], t: u64, found: Located) -> Result<(), Refusal>
    requires { (first n : ℕ) → found ≡ Located.Block first n → SoundBlock table.now first n }
    ensures { result ≡ root_of (slices table.now [] [] []) t found }
{
    match found {
        Located::Block(first, count) => block_root(table, first, count, Purpose::Format),
        Located::NoTable => Err(Refusal {
            why: Why::UnknownRegistryReference { table: t },
            place: t,
        }),
        Located::NoEntry => Err(Refusal {
            why: Why::UnknownRegistryReference { table: t },
            place: t,
        }),
    }
}

// Table t: its reference or inline schema, its root, its names.
fn reference_rule(format: &Format, t: u64) -> Result<(), Refusal>
    requires { Forms format.now × (t < reference_count format.now.references) }
    ensures { result ≡ reference_rule format.now t }
{
    let r = reference_at(format.references, t);
    inline_rule(format.table, r)?;
    root_of(format.table, t, resolve(format.names, format.registry, r))
}

fn references_rule(format: &Format) -> Result<(), Refusal>
    requires { Forms format.now }
    ensures { result ≡ in_order (reference_rule format.now) 0 (reference_count format.now.references) }
{
    let m = (format.references.len() / REFERENCE_SIZE) as u64;
    for t in 0..m {
        reference_rule(format, t)?;
    }
    Ok(())
}

// No tables; the registry's schemas in name order; then each table in turn.
pub fn rules_order(format: &Format) -> Result<(), Refusal>
    requires { Forms format.now }
    ensures { result ≡ rules_order format.now }
{
    if format.references.len() / REFERENCE_SIZE == 0 {
        return Err(Refusal::EMPTY_TABLE_SCHEMAS);
    }
    entries_rule(format.table, format.registry)?;
    references_rule(format)
}
