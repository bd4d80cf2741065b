// The row view: a value table's records and the number of one, and what a host sees from there. The getters take the view apart and
// leave the work to functions with plain parameters, which serve every other caller.
#![tactic(auto)]

ghost use Rattle.std.specs.Prelude.{◌≡◌, ◌≤◌, ◌<◌, length};
ghost use Rattle.rules.specs.Bytes.{longest_slice};
ghost use Rattle.rules.specs.Query.{query_rule};
ghost use Rattle.rules.specs.View.{child_count, kind_rule, tag_rule, child_count_rule, past_trees, records_from, after_rule, field_rule};

use query::{record_seen, value_of};
use record::value_record::{records_in, value_record_at, whole_records};
use rules::{LONGEST, Refusal, Scalar, ValueRecord};
use value::record_alone;

// The records of a value table, and the number of the record that is looked at.
#[derive(Clone, Copy)]
pub struct RowView<'a> {
    pub records: &'a [u8],
    pub at: usize,
}

// ---- a record's fields

// The kind of record i.
pub fn kind_at(records: &[u8], i: usize) -> Result<u64, Refusal>
    ensures { result ≡ kind_rule records.now i }
{
    let r = record_seen(records, i)?;
    Ok(r.kind as u64)
}

// The tag by which the parent of record i chose it.
pub fn tag_at(records: &[u8], i: usize) -> Result<u64, Refusal>
    ensures { result ≡ tag_rule records.now i }
{
    let r = record_seen(records, i)?;
    Ok(r.tag)
}

// How many children a record has: what is no variant, repeated value or tuple has none.
pub fn children_of(r: ValueRecord) -> u64
    ensures { result ≡ child_count r }
{
    let kind = r.kind;
    if kind < 15 {
        return 0;
    }
    r.size
}

// How many children record i has.
pub fn child_count_at(records: &[u8], i: usize) -> Result<u64, Refusal>
    ensures { result ≡ child_count_rule records.now i }
{
    let r = record_seen(records, i)?;
    Ok(children_of(r))
}

// ---- steps

// Past so many trees from record i on. Each record is looked at once, and adds its children to the trees that are left.
fn past_trees(records: &[u8], trees: u64, i: usize) -> Result<u64, Refusal>
    requires { (length records.now ≤ longest_slice) × (trees < 4294967296) }
    ensures { result ≡ past_trees records.now (records_from records.now i) trees i }
{
    let count = records_in(records.len() as u64);
    // Counted by hand: each record changes how many trees are left.
    let mut at = i;
    let mut left = trees;
    while 0 < left {
        if count <= at as u64 {
            return Err(Refusal::BAD_VALUE_TABLE);
        }
        let r = value_record_at(records, at);
        if !record_alone(r) {
            return Err(Refusal::BAD_VALUE_TABLE);
        }
        left = (left - 1) + children_of(r);
        at += 1;
    }
    Ok(at as u64)
}

// The record behind the tree of record i.
pub fn after_at(records: &[u8], i: usize) -> Result<u64, Refusal>
    ensures { result ≡ after_rule records.now i }
{
    record_seen(records, i)?;
    past_trees(records, 1, i)
}

// Field k of record i, which has to be a tuple.
pub fn field_at(records: &[u8], i: usize, k: u64) -> Result<u64, Refusal>
    ensures { result ≡ field_rule records.now i k }
{
    if LONGEST < records.len() {
        return Err(Refusal::SETTING);
    }
    let count = records_in(records.len() as u64);
    if count <= i as u64 {
        return Err(Refusal::SETTING);
    }
    let r = value_record_at(records, i);
    let kind = r.kind;
    if kind != 17 {
        return Err(Refusal::SETTING);
    }
    if r.size <= k {
        return Err(Refusal::SETTING);
    }
    if !whole_records(records.len() as u64) {
        return Err(Refusal::BAD_VALUE_TABLE);
    }
    if !record_alone(r) {
        return Err(Refusal::BAD_VALUE_TABLE);
    }
    let found = past_trees(records, k, i + 1)?;
    if count <= found {
        return Err(Refusal::BAD_VALUE_TABLE);
    }
    Ok(found)
}

// ---- the view

impl<'a> RowView<'a> {
    // The kind of its record.
    pub fn kind(self) -> Result<u64, Refusal>
        ensures { result ≡ kind_rule self.entry.records.now self.entry.at }
    {
        kind_at(self.records, self.at)
    }

    // The tag by which the parent chose it.
    pub fn tag(self) -> Result<u64, Refusal>
        ensures { result ≡ tag_rule self.entry.records.now self.entry.at }
    {
        tag_at(self.records, self.at)
    }

    // How many children it has.
    pub fn child_count(self) -> Result<u64, Refusal>
        ensures { result ≡ child_count_rule self.entry.records.now self.entry.at }
    {
        child_count_at(self.records, self.at)
    }

    // Its value.
    pub fn value(self) -> Result<Scalar, Refusal>
        ensures { result ≡ query_rule self.entry.records.now self.entry.at }
    {
        value_of(self.records, self.at)
    }

    // The record behind its tree.
    pub fn after(self) -> Result<u64, Refusal>
        ensures { result ≡ after_rule self.entry.records.now self.entry.at }
    {
        after_at(self.records, self.at)
    }

    // Its field k.
    pub fn field(self, k: u64) -> Result<u64, Refusal>
        ensures { result ≡ field_rule self.entry.records.now self.entry.at k }
    {
        field_at(self.records, self.at, k)
    }
}
