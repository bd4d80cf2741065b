// The calls of the row view: what is seen from one record of a value table.
ghost use Rattle.std.specs.Prelude.{◌≡◌};
ghost use Rattle.rules.specs.View.{kind_rule, tag_rule, child_count_rule, after_rule, field_rule};
ghost use Rattle.skiff.specs.Calls.{view_given};

use super::ANSWER;
use answers::{answer_of_viewed, give};
use rules::Refusal;

// Gives to the host what is seen.
fn give_viewed(answer: &mut [u8], viewed: Result<u64, Refusal>) -> u32
    ensures { record { number = result; answer = answer.new } ≡ view_given viewed answer.old }
{
    if answer.len() < ANSWER {
        return 1;
    }
    give(answer, answer_of_viewed(viewed))
}

// The kind of a record.
pub fn skiff2_kind(records: &[u8], record: u64, answer: &mut [u8]) -> u32
    ensures { record { number = result; answer = answer.new }
        ≡ view_given (kind_rule records.now «record») answer.old }
{
    let viewed = view::kind_at(records, record as usize);
    give_viewed(answer, viewed)
}

// The tag by which the parent of a record chose it.
pub fn skiff2_tag(records: &[u8], record: u64, answer: &mut [u8]) -> u32
    ensures { record { number = result; answer = answer.new }
        ≡ view_given (tag_rule records.now «record») answer.old }
{
    let viewed = view::tag_at(records, record as usize);
    give_viewed(answer, viewed)
}

// How many children a record has.
pub fn skiff2_child_count(records: &[u8], record: u64, answer: &mut [u8]) -> u32
    ensures { record { number = result; answer = answer.new }
        ≡ view_given (child_count_rule records.now «record») answer.old }
{
    let viewed = view::child_count_at(records, record as usize);
    give_viewed(answer, viewed)
}

// The record behind the tree of a record.
pub fn skiff2_after(records: &[u8], record: u64, answer: &mut [u8]) -> u32
    ensures { record { number = result; answer = answer.new }
        ≡ view_given (after_rule records.now «record») answer.old }
{
    let viewed = view::after_at(records, record as usize);
    give_viewed(answer, viewed)
}

// A field of a record, which has to be a tuple.
pub fn skiff2_field(records: &[u8], record: u64, field: u64, answer: &mut [u8]) -> u32
    ensures { record { number = result; answer = answer.new }
        ≡ view_given (field_rule records.now «record» field) answer.old }
{
    let viewed = view::field_at(records, record as usize, field);
    give_viewed(answer, viewed)
}
