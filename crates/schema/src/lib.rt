// The schema side: which schemas and formats the rules accept, and why the others are refused. Each call answers what the
// rules answer, on every input.
#![tactic(auto)]

ghost use Rattle.std.specs.Prelude.{◌≡◌};
ghost use Rattle.rules.specs.Format.{name_answer, schema_answer, encoder_rules, encoder_rule, format_rules, format_rule};

pub mod depths;
pub mod format;
pub mod forms;
pub mod names;
pub mod order;

use block::table::{block_passes, block_root, block_rule, block_stands, block_utf8};
use depths::depths_ok;
use forms::forms_ok;
use names::format_utf8;
use order::rules_order;
use rules::{Format, LONGEST, Purpose, Refusal};

// ---- one name

// The check of a name by itself.
pub fn check_name(name: &[u8]) -> Result<(), Refusal>
    ensures { result ≡ name_answer name.now }
{
    if LONGEST < name.len() {
        return Err(Refusal::SETTING);
    }
    if utf8::is_utf8(name, 0, name.len()) {
        return Ok(());
    }
    Err(Refusal::NAME_NOT_UTF8)
}

// ---- one block, given by first record and record count

// The check of a schema alone.
pub fn check_schema(table: &[u8], names: &[u8], first: u64, count: u64) -> Result<(), Refusal>
    ensures { result ≡ schema_answer table.now names.now first count }
{
    if LONGEST < table.len() || LONGEST < names.len() {
        return Err(Refusal::SETTING);
    }
    block_stands(table, names, first, count)?;
    block_rule(table, first, count)
}

// The check of the encoder's schema, its sizes left to a caller that has more settings to test.
pub fn encoder_rules(table: &[u8], names: &[u8], first: u64, count: u64) -> Result<(), Refusal>
    ensures { result ≡ encoder_rules table.now names.now first count }
{
    block_stands(table, names, first, count)?;
    block_rule(table, first, count)?;
    block_root(table, first, count, Purpose::Encoder)
}

// The same answer, sooner for a block of few records that passes. It is apart from the plain one, so that `encode`, its one caller, has it
// compiled into it.
pub fn encoder_rules_at_once(
    table: &[u8],
    names: &[u8],
    first: u64,
    count: u64,
) -> Result<(), Refusal>
    ensures { result ≡ encoder_rules table.now names.now first count }
{
    if block_passes(table, names, first, count) && block_utf8(table, names, first, count) {
        return block_root(table, first, count, Purpose::Encoder);
    }
    // What a call lends has to lie in memory: copied here, so that a block that passes is spared that.
    let block = table;
    let store = names;
    encoder_rules(block, store, first, count)
}

pub fn check_encoder_schema(
    table: &[u8],
    names: &[u8],
    first: u64,
    count: u64,
) -> Result<(), Refusal>
    ensures { result ≡ encoder_rule table.now names.now first count }
{
    if LONGEST < table.len() || LONGEST < names.len() {
        return Err(Refusal::SETTING);
    }
    encoder_rules(table, names, first, count)
}

// ---- a format

// All forms, all depths, all names, then the rules; its sizes left to a caller that has more settings to test.
pub fn format_rules(format: &Format) -> Result<(), Refusal>
    ensures { result ≡ format_rules format.now }
{
    if !forms_ok(format) {
        return Err(Refusal::BAD_SCHEMA_TABLE);
    }
    if !depths_ok(format) {
        return Err(Refusal::TOO_DEEP);
    }
    if !format_utf8(format) {
        return Err(Refusal::NAME_NOT_UTF8);
    }
    rules_order(format)
}

pub fn check_format(format: &Format) -> Result<(), Refusal>
    ensures { result ≡ format_rule format.now }
{
    if LONGEST < format.table.len()
        || LONGEST < format.names.len()
        || LONGEST < format.references.len()
        || LONGEST < format.registry.len()
    {
        return Err(Refusal::SETTING);
    }
    format_rules(format)
}
