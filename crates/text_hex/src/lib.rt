// Numbers and bytes by hex digits, made in a buffer. Each function puts a text at a position and answers where the next one goes.
#![tactic(auto)]

ghost use Rattle.std.specs.Prelude.{◌+◌, ◌*◌, ◌≤◌, ◌<◌, ◌≡◌, length};
ghost use Rattle.rules.specs.Numerals.{digit};
ghost use Rattle.rules.specs.Listing.{hex, hex_number, hex_bytes};
ghost use Rattle.lines.specs.Puts.{TextPut};

use lines::put_text;

pub mod integers;

// A number below 16 as a digit.
pub fn hex_digit(d: u8) -> u8
    requires { d < 16 }
    ensures { result ≡ digit d }
{
    if d < 10 {
        return 48 + d;
    }
    87 + d
}

// Bytes in hex, as they stand there.
fn put_hex(buffer: &mut [u8], at: usize, bytes: &[u8]) -> usize
    requires { at + 2 * length bytes.now ≤ length buffer.old }
    ensures text_put { TextPut buffer.old at (hex bytes.now) buffer.new result }
    ensures value { result ≡ at + 2 * length bytes.now }
{
    let mut next = at;
    for byte in bytes {
        buffer[next] = hex_digit(*byte / 16);
        buffer[next + 1] = hex_digit(*byte % 16);
        next += 2;
    }
    next
}

// The same, and a `-` where there are none.
pub fn put_hex_bytes(buffer: &mut [u8], at: usize, bytes: &[u8]) -> usize
    requires { at + 1 + 2 * length bytes.now ≤ length buffer.old }
    ensures text_put { TextPut buffer.old at (hex_bytes bytes.now) buffer.new result }
    ensures upper_bound { result ≤ at + 1 + 2 * length bytes.now }
{
    if bytes.is_empty() {
        return put_text(buffer, at, b"-");
    }
    put_hex(buffer, at, bytes)
}

// A number by so many hex digits: those of a sixteenth of it, and then its last.
pub fn put_hex_number(buffer: &mut [u8], at: usize, count: usize, x: u64) -> usize
    requires { at + count ≤ length buffer.old }
    ensures text_put { TextPut buffer.old at (hex_number count x) buffer.new result }
    ensures value { result ≡ at + count }
{
    if count == 0 {
        return at;
    }
    let last = put_hex_number(buffer, at, count - 1, x / 16);
    buffer[last] = hex_digit((x % 16) as u8);
    last + 1
}
