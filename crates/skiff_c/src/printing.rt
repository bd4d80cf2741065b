// The call that writes an integer as text.
ghost use Rattle.std.specs.Prelude.{◌≡◌};
ghost use Rattle.skiff.specs.Calls.{integer_text_given};

// The text of an integer of 1 to 32 bytes, at the start of a slice.
#[unsafe(no_mangle)]
pub extern "C" fn skiff2_integer_text(bytes: &[u8], text: &mut [u8], answer: &mut [u8]) -> u32
    ensures { record { number = result; answer = answer.new; lent = text.new }
        ≡ integer_text_given bytes.now text.old answer.old }
{
    skiff::printing::skiff2_integer_text(bytes, text, answer)
}
