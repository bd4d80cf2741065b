// An integer of any width up to 32 bytes as text: a minus sign where it is negative, then its magnitude in hex, without leading zeros. No
// number is wider than a byte and its carry.
ghost use Rattle.std.specs.Prelude.{◌+◌, ◌-◌, ◌*◌, ◌/◌, ◌^◌, ◌≤◌, ◌<◌, ◌≡◌, leb, length, replicate};
ghost use Rattle.rules.specs.Bytes.{le, over};
ghost use Rattle.rules.specs.Numerals.{numeral, integer_text, integer_text_rule};
ghost use Rattle.lines.specs.Puts.{TextPut};
ghost use Rattle.text_hex.specs.Digits.{number_of, digit_at};

use super::hex_digit;
use lines::put_text;
use rules::{Refusal, Why, room_in};
use wire::numbers::wide;

// The widest integer, an int256, has so many bytes.
const WIDEST: usize = 32;

// ---- the digits of a number in bytes, the lowest byte first

// Digit i, counted from the lowest.
fn digit_at(number: &[u8], i: usize) -> u8
    requires { i / 2 < length number.now }
    ensures { result ≡ digit_at number.now 0 i }
{
    let byte = number[i / 2];
    if i % 2 == 0 {
        return byte % 16;
    }
    byte / 16
}

// How many there are, without leading zeros.
fn digit_count(number: &[u8]) -> usize
    requires { (0 < length number.now) × (length number.now ≤ 32) }
    ensures { result ≡ length (numeral 16 (number_of number.now)) }
{
    for last in (1..2 * number.len()).rev() {
        if 0 < digit_at(number, last) {
            return last + 1;
        }
    }
    1
}

// The digits, the highest first.
fn put_digits(buffer: &mut [u8], at: usize, number: &[u8]) -> usize
    requires { (0 < length number.now) × (length number.now ≤ 32)
        × (at + length (numeral 16 (number_of number.now)) ≤ length buffer.old) }
    ensures { TextPut buffer.old at (numeral 16 (number_of number.now)) buffer.new result }
{
    let count = digit_count(number);
    let mut next = at;
    for i in (0..count).rev() {
        buffer[next] = hex_digit(digit_at(number, i));
        next += 1;
    }
    next
}

// ---- two's complement

// Whether the highest bit is set.
fn is_negative(number: &[u8]) -> bool
    requires { (0 < length number.now) × (length number.now ≤ 32) }
    ensures { result ≡ leb (256 ^ length number.now) (2 * number_of number.now) }
{
    127 < number[number.len() - 1]
}

// Room for a number's bytes.
fn no_bytes() -> [u8; 32]
    ensures { (result ≡ replicate 32 0) × (length result ≡ 32) }
{
    [0; 32]
}

// What is lacking to 256 to the power of the number of bytes: each byte's complement, and one, carried up from the lowest.
fn negated(number: &[u8]) -> [u8; 32]
    requires { (0 < length number.now) × (length number.now ≤ 32) }
    ensures { (result ≡ over (replicate 32 0) 0 (le (length number.now) (256 ^ length number.now - number_of number.now)))
        × (length result ≡ 32) }
{
    let mut bytes = no_bytes();
    let mut carry = 1;
    for k in 0..number.len() {
        let sum = 255 - wide(number[k]) + carry;
        bytes[k] = (sum % 256) as u8;
        carry = sum / 256;
    }
    bytes
}

// ---- the text

// How long it is.
fn signed_length(number: &[u8]) -> usize
    requires { (0 < length number.now) × (length number.now ≤ 32) }
    ensures { result ≡ length (integer_text number.now) }
{
    if is_negative(number) {
        let magnitude = negated(number);
        return 1 + digit_count(&magnitude[..number.len()]);
    }
    digit_count(number)
}

// The text of the integer that the bytes are.
pub fn put_signed(buffer: &mut [u8], at: usize, number: &[u8]) -> usize
    requires { (0 < length number.now) × (length number.now ≤ 32) × (at + length (integer_text number.now) ≤ length buffer.old) }
    ensures { TextPut buffer.old at (integer_text number.now) buffer.new result }
{
    if is_negative(number) {
        let magnitude = negated(number);
        let next = put_text(buffer, at, b"-");
        return put_digits(buffer, next, &magnitude[..number.len()]);
    }
    put_digits(buffer, at, number)
}

// The text of an integer at the start of a slice, and its bytes. A slice of no bytes or of more than 32 is no integer (1); where there is
// no room for the text (21) nothing is written.
pub fn integer_text(bytes: &[u8], text: &mut [u8]) -> Result<u64, Refusal>
    ensures { record { answer = result; text = text.new } ≡ integer_text_rule bytes.now text.old }
{
    let width = bytes.len();
    if width == 0 {
        return Err(Refusal::SETTING);
    }
    if WIDEST < width {
        return Err(Refusal::SETTING);
    }
    let needed = signed_length(bytes) as u64;
    if room_in(text.len()) < needed {
        return Err(Refusal {
            why: Why::NoOutputRoom { needed },
            place: 0,
        });
    }
    put_signed(text, 0, bytes);
    Ok(needed)
}
