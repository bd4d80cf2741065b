// The fields of a row: tags, lengths, and what the wire types of a fixed width leave in the payload store.
ghost use Rattle.std.specs.Prelude.{◌≡◌, ◌+◌, ◌≤◌, ◌<◌, length, Err};
ghost use Rattle.rules.specs.Refusals.{Truncated};
ghost use Rattle.rules.specs.Wire.{form, width_of};
ghost use Rattle.leaves.specs.Fields.{read_number_at, payload_of_fixed};
ghost use Rattle.leaves.specs.Shapes.{shape_of, ends_at};

use rules::{Refusal, Why};
use wire::codes::tag_width;
use wire::{u16_at, u32_at, wide};

// A field that the stream's end cuts.
fn truncated(context: u8, at: usize) -> Result<(u64, usize), Refusal>
    ensures { result ≡ Err (Truncated context at) }
{
    Err(Refusal {
        why: Why::Truncated { context },
        place: at as u64,
    })
}

// A variant's tag.
pub fn read_tag(code: u8, input: &[u8], at: usize) -> Result<(u64, usize), Refusal>
    requires { (14 < code) × (code < 19) × (at ≤ length input.now) }
    ensures { result ≡ read_number_at input.now (width_of (form code)) (14 + width_of (form code)) at }
{
    let left = input.len() - at;
    if tag_width(code) == 1 {
        if left < 1 {
            return truncated(15, at);
        }
        return Ok((wide(input[at]), at + 1));
    }
    if left < 2 {
        return truncated(16, at);
    }
    Ok((u16_at(input, at), at + 2))
}

// The number of a row's table.
pub fn read_table(input: &[u8], at: usize) -> Result<(u64, usize), Refusal>
    requires { at ≤ length input.now }
    ensures { result ≡ read_number_at input.now 2 17 at }
{
    if input.len() - at < 2 {
        return truncated(17, at);
    }
    Ok((u16_at(input, at), at + 2))
}

// A blob's length.
pub fn read_length(input: &[u8], at: usize) -> Result<(u64, usize), Refusal>
    requires { at ≤ length input.now }
    ensures { result ≡ read_number_at input.now 4 13 at }
{
    if input.len() - at < 4 {
        return truncated(13, at);
    }
    Ok((u32_at(input, at), at + 4))
}

// How many bytes of a fixed width lie in the payload store: those of a value that a record's eight bytes do not hold.
pub fn payload_of_fixed(width: usize) -> u64
    ensures { (result ≡ payload_of_fixed width) × (result ≤ width) }
{
    if width <= 8 { 0 } else { width as u64 }
}

// Whether a tag ends the children: the largest one of its width does, in the repeated types. The width is asked as
// `read_tag` asks it, so that the compiler asks once.
pub fn ends(code: u8, tag: u64) -> bool
    requires { code < 19 }
    ensures { result ≡ ends_at (shape_of code) tag }
{
    if code < 17 {
        return false;
    }
    if tag_width(code) == 1 {
        return tag == 255;
    }
    tag == 65535
}
