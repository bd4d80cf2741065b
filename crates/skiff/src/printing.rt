// The call that writes an integer as text.
ghost use Rattle.std.specs.Prelude.{◌≡◌};
ghost use Rattle.skiff.specs.Calls.{integer_text_given};

use super::ANSWER;
use answers::{answer_of_text, give};
use text_hex::integers::integer_text;

// The text of an integer of 1 to 32 bytes, at the start of a slice.
pub fn skiff2_integer_text(bytes: &[u8], text: &mut [u8], answer: &mut [u8]) -> u32
    ensures { record { number = result; answer = answer.new; lent = text.new }
        ≡ integer_text_given bytes.now text.old answer.old }
{
    if answer.len() < ANSWER {
        return 1;
    }
    let written = integer_text(bytes, text);
    give(answer, answer_of_text(written))
}
