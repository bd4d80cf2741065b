// The call that asks for the value of one record.
ghost use Rattle.std.specs.Prelude.{◌≡◌};
ghost use Rattle.skiff.specs.Calls.{value_given};

use super::ANSWER;
use answers::{answer_of_queried, give};

// The value of one record of a value table, as far as the record can be judged alone.
pub fn skiff2_value(records: &[u8], index: u64, answer: &mut [u8]) -> u32
    ensures { record { number = result; answer = answer.new } ≡ value_given records.now index answer.old }
{
    if answer.len() < ANSWER {
        return 1;
    }
    let queried = query::value_of(records, index as usize);
    give(answer, answer_of_queried(queried))
}
