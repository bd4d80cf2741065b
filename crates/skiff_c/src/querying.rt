// The call that asks for the value of one record.
ghost use Rattle.std.specs.Prelude.{◌≡◌};
ghost use Rattle.skiff.specs.Calls.{value_given};

// The value of one record of a value table, as far as the record can be judged alone.
#[unsafe(no_mangle)]
pub extern "C" fn skiff2_value(records: &[u8], index: u64, answer: &mut [u8]) -> u32
    ensures { record { number = result; answer = answer.new } ≡ value_given records.now index answer.old }
{
    skiff::querying::skiff2_value(records, index, answer)
}
