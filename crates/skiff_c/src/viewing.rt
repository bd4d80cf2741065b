// The calls of the row view: what is seen from one record of a value table.
ghost use Rattle.std.specs.Prelude.{◌≡◌};
ghost use Rattle.rules.specs.View.{kind_rule, tag_rule, child_count_rule, after_rule, field_rule};
ghost use Rattle.skiff.specs.Calls.{view_given};

// The kind of a record.
#[unsafe(no_mangle)]
pub extern "C" fn skiff2_kind(records: &[u8], record: u64, answer: &mut [u8]) -> u32
    ensures { record { number = result; answer = answer.new }
        ≡ view_given (kind_rule records.now «record») answer.old }
{
    skiff::viewing::skiff2_kind(records, record, answer)
}

// The tag by which the parent of a record chose it.
#[unsafe(no_mangle)]
pub extern "C" fn skiff2_tag(records: &[u8], record: u64, answer: &mut [u8]) -> u32
    ensures { record { number = result; answer = answer.new }
        ≡ view_given (tag_rule records.now «record») answer.old }
{
    skiff::viewing::skiff2_tag(records, record, answer)
}

// How many children a record has.
#[unsafe(no_mangle)]
pub extern "C" fn skiff2_child_count(records: &[u8], record: u64, answer: &mut [u8]) -> u32
    ensures { record { number = result; answer = answer.new }
        ≡ view_given (child_count_rule records.now «record») answer.old }
{
    skiff::viewing::skiff2_child_count(records, record, answer)
}

// The record behind the tree of a record.
#[unsafe(no_mangle)]
pub extern "C" fn skiff2_after(records: &[u8], record: u64, answer: &mut [u8]) -> u32
    ensures { record { number = result; answer = answer.new }
        ≡ view_given (after_rule records.now «record») answer.old }
{
    skiff::viewing::skiff2_after(records, record, answer)
}

// A field of a record, which has to be a tuple.
#[unsafe(no_mangle)]
pub extern "C" fn skiff2_field(records: &[u8], record: u64, field: u64, answer: &mut [u8]) -> u32
    ensures { record { number = result; answer = answer.new }
        ≡ view_given (field_rule records.now «record» field) answer.old }
{
    skiff::viewing::skiff2_field(records, record, field, answer)
}
