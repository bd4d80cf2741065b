// A block as a part of the record table, given by first record and record count.
ghost use Rattle.std.specs.Prelude.{◌≡◌, true, ◌+◌, ◌≤◌, length, Ok};
ghost use Rattle.rules.specs.Block.{records, block};
ghost use Rattle.rules.specs.SchemaRules.{table_rule};
ghost use Rattle.rules.specs.Format.{block_form_ok, block_depth_ok, block_utf8, block_rule, one_block};
ghost use Rattle.block.specs.Sound.{SoundBlock};
ghost use Rattle.block.specs.Passing.{passes_at_once};

use super::form::{block_ok, depth_of, span_ok};
use super::names::names_utf8;
use super::validation::{check_root, level_rule, passes, validate};
use record::node::NODE_SIZE;
use rules::{Purpose, Refusal};
use utf8::short_ascii;

// The block: the one place that cuts it out of the record table.
pub fn block_of(table: &[u8], first: u64, count: u64) -> &[u8]
    requires { first + count ≤ records table.now }
    ensures { result.now ≡ block table.now first count }
{
    let from = first as usize * NODE_SIZE;
    let to = (first + count) as usize * NODE_SIZE;
    &table[from..to]
}

// It lies in the table and has the form.
pub fn block_form_ok(table: &[u8], store: u64, first: u64, count: u64) -> bool
    ensures { result ≡ block_form_ok table.now store first count }
{
    let m = (table.len() / NODE_SIZE) as u64;
    span_ok(first, count, m) && block_ok(block_of(table, first, count), store)
}

pub fn block_depth_ok(table: &[u8], first: u64, count: u64) -> bool
    requires { SoundBlock table.now first count }
    ensures { result ≡ block_depth_ok table.now first count }
{
    // So few records are never deeper than that.
    count <= 64 || depth_of(block_of(table, first, count)) <= 64
}

// Its names are well-formed UTF-8. A store of no more bytes than the block, all of them ASCII, needs no look at each name.
pub fn block_utf8(table: &[u8], names: &[u8], first: u64, count: u64) -> bool
    requires { block_form_ok table.now (length names.now) first count ≡ true }
    ensures { result ≡ block_utf8 table.now names.now first count }
{
    let s = block_of(table, first, count);
    short_ascii(names, s.len()) || names_utf8(s, names)
}

// The rules 4 and 5. A block of few records, which is never too deep, passes where each record passes, in whatever order they are asked:
// the walk in preorder is made only where one does not, to say which comes first.
pub fn block_rule(table: &[u8], first: u64, count: u64) -> Result<(), Refusal>
    requires { SoundBlock table.now first count }
    ensures { result ≡ block_rule table.now first count }
{
    let s = block_of(table, first, count);
    if 64 < count {
        return validate(s, first, 64, 0);
    }
    let level = level_rule(s, first);
    let Ok(()) = level else {
        return validate(s, first, 64, 0);
    };
    Ok(())
}

pub fn block_root(table: &[u8], first: u64, count: u64, purpose: Purpose) -> Result<(), Refusal>
    requires { SoundBlock table.now first count }
    ensures { result ≡ table_rule purpose (block table.now first count) first }
{
    check_root(block_of(table, first, count), first, purpose)
}

// Form, then depth, then names: what comes before the rules. The sizes of the slices are the caller's to test.
pub fn block_stands(table: &[u8], names: &[u8], first: u64, count: u64) -> Result<(), Refusal>
    ensures { result ≡ one_block table.now names.now first count (Ok tt) }
{
    if table.len() % NODE_SIZE != 0 {
        return Err(Refusal::BAD_SCHEMA_TABLE);
    }
    if !block_form_ok(table, names.len() as u64, first, count) {
        return Err(Refusal::BAD_SCHEMA_TABLE);
    }
    if !block_depth_ok(table, first, count) {
        return Err(Refusal::TOO_DEEP);
    }
    if block_utf8(table, names, first, count) {
        return Ok(());
    }
    Err(Refusal::NAME_NOT_UTF8)
}

// Whether a block of few records passes form, depth and rules, by one loop, its names left aside; where it says no, the block may pass
// all the same.
pub fn block_passes(table: &[u8], names: &[u8], first: u64, count: u64) -> bool
    ensures { result ≡ passes_at_once table.now names.now first count }
{
    table.len() % NODE_SIZE == 0
        && count <= 64
        && span_ok(first, count, (table.len() / NODE_SIZE) as u64)
        && passes(block_of(table, first, count), names.len() as u64, first)
}
