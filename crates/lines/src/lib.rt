// Lines of text, made in a buffer: each function puts a text or a number at a position and answers where the next one goes. No writer is passed: so a
// contract says each byte, and nothing can fail.
#![tactic(auto)]

ghost use Rattle.std.specs.Prelude.{ℕ, ◌+◌, ◌≤◌, ◌<◌, ◌++◌, length, slice_index, ◌≡◌, ◌≢◌};
ghost use Rattle.rules.specs.Lines.{decimal, word, is_none, spaced, item, labelled, word_of, closing_bracket, carried, stopped_at, end_line, refused_line, run_line};
ghost use Rattle.lines.specs.Puts.{TextPut, head};

use rules::{Label, Labels, Ran, Refusal, RefusalLine};
use words::{label_word, word_of};

// A text.
pub fn put_text(buffer: &mut [u8], at: usize, text: &[u8]) -> usize
    requires { at + length text.now ≤ length buffer.old }
    ensures { TextPut buffer.old at text.now buffer.new result }
{
    let end = at + text.len();
    buffer[at..end].copy_from_slice(text);
    end
}

// A number in decimal digits: those of a tenth of it, and then its last.
pub fn put_decimal(buffer: &mut [u8], at: usize, n: u64) -> usize
    requires { at + length (decimal n) ≤ length buffer.old }
    ensures { TextPut buffer.old at (decimal n) buffer.new result }
{
    if n < 10 {
        buffer[at] = 48 + n as u8;
        return at + 1;
    }
    let last = put_decimal(buffer, at, n / 10);
    buffer[last] = 48 + (n % 10) as u8;
    last + 1
}

// A text and then a number.
pub fn put_number(buffer: &mut [u8], at: usize, text: &[u8], n: u64) -> usize
    requires { at + length text.now + 20 ≤ length buffer.old }
    ensures text_put { TextPut buffer.old at (text.now ++ decimal n) buffer.new result }
    ensures upper_bound { result ≤ at + length text.now + 20 }
{
    let next = put_text(buffer, at, text);
    put_decimal(buffer, next, n)
}

// How many bytes of a text stand before its first blank.
fn word_length(text: &[u8]) -> usize
    ensures within { result ≤ length text.now }
    ensures before { (k : ℕ) → k < result → slice_index text.now k ≢ 32 }
    ensures blank { result < length text.now → slice_index text.now result ≡ 32 }
{
    let blank = text.iter().position(|byte| *byte == b' ');
    blank.unwrap_or(text.len())
}

// A text up to its first blank.
pub fn put_word(buffer: &mut [u8], at: usize, text: &[u8]) -> usize
    requires { at + length text.now ≤ length buffer.old }
    ensures text_put { TextPut buffer.old at (word text.now) buffer.new result }
    ensures upper_bound { result ≤ at + length text.now }
{
    let len = word_length(text);
    put_text(buffer, at, &text[..len])
}

// Whether there is no word at a text's start.
fn no_word(text: &[u8]) -> bool
    ensures { result ≡ is_none (word text.now) }
{
    if text.len() == 0 {
        return true;
    }
    text[0] == b' '
}

// A text's word behind a blank, if there is one.
fn put_spaced(buffer: &mut [u8], at: usize, text: &[u8]) -> usize
    requires { at + 1 + length text.now ≤ length buffer.old }
    ensures text_put { TextPut buffer.old at (spaced (word text.now)) buffer.new result }
    ensures upper_bound { result ≤ at + 1 + length text.now }
{
    if no_word(text) {
        return at;
    }
    let next = put_text(buffer, at, b" ");
    put_word(buffer, next, text)
}

// A carried value behind a text: what it is, the number, and its word, if it has one. Nothing where nothing is carried.
fn put_item(
    buffer: &mut [u8],
    at: usize,
    before: &[u8],
    label: &[u8],
    value: u64,
    text: &[u8],
) -> usize
    requires { at + length before.now + length label.now + length text.now + 22 ≤ length buffer.old }
    ensures text_put { TextPut buffer.old at (item before.now (word label.now) value
        (word text.now)) buffer.new result }
    ensures upper_bound { result ≤ at + length before.now + length label.now + length text.now + 22 }
{
    if no_word(label) {
        return at;
    }
    let next = put_text(buffer, at, before);
    let next = put_word(buffer, next, label);
    let next = put_number(buffer, next, b" ", value);
    put_spaced(buffer, next, text)
}

// A carried value behind a text, by what it is.
fn put_labelled(buffer: &mut [u8], at: usize, before: &[u8], label: Label, value: u64) -> usize
    requires { at + length before.now + 62 ≤ length buffer.old }
    ensures text_put { TextPut buffer.old at (item before.now (labelled label) value (word_of label value))
        buffer.new result }
    ensures upper_bound { result ≤ at + length before.now + 62 }
{
    let name = label_word(label);
    let text = word_of(label, value);
    put_item(buffer, at, before, &name, value, &text)
}

// The closing bracket, where the first value was put.
fn put_closing(buffer: &mut [u8], at: usize, label: Label) -> usize
    requires { at + 1 ≤ length buffer.old }
    ensures text_put { TextPut buffer.old at (closing_bracket (labelled label)) buffer.new result }
    ensures upper_bound { result ≤ at + 1 }
{
    let name = label_word(label);
    if no_word(&name) {
        return at;
    }
    put_text(buffer, at, b")")
}

// What a refusal carries, in brackets.
fn put_carried(buffer: &mut [u8], at: usize, labels: Labels, a: u64, b: u64, c: u64) -> usize
    requires { at + 193 ≤ length buffer.old }
    ensures text_put { TextPut buffer.old at (carried labels a b c) buffer.new result }
    ensures upper_bound { result ≤ at + 193 }
{
    let first = labels.first;
    let second = labels.second;
    let third = labels.third;
    let next = put_labelled(buffer, at, b" (", first, a);
    let next = put_labelled(buffer, next, b", ", second, b);
    let next = put_labelled(buffer, next, b", ", third, c);
    put_closing(buffer, next, first)
}

// What a refusal is: number, name, and what it carries.
fn put_head(buffer: &mut [u8], line: RefusalLine) -> usize
    requires { (256 ≤ length buffer.old) × (length line.name ≡ 28) }
    ensures text_put { TextPut buffer.old 0 (head line) buffer.new result }
    ensures upper_bound { result ≤ 256 }
{
    let name = line.name;
    let labels = line.labels;
    let next = put_number(buffer, 0, b"refused ", line.number as u64);
    let next = put_text(buffer, next, b" ");
    let next = put_word(buffer, next, &name);
    put_carried(buffer, next, labels, line.a, line.b, line.c)
}

// Where a refused run stands.
fn put_standing(buffer: &mut [u8], at: usize, place: u64, rows: u64, bytes: u64) -> usize
    requires { at + 96 ≤ length buffer.old }
    ensures text_put { TextPut buffer.old at (stopped_at place rows bytes) buffer.new result }
    ensures upper_bound { result ≤ at + 96 }
{
    let next = put_number(buffer, at, b" at ", place);
    let next = put_number(buffer, next, b" after ", rows);
    let next = put_number(buffer, next, b" rows, ", bytes);
    put_text(buffer, next, b" bytes\n")
}

// The line of a run that came to the stream's end.
pub fn put_end_line(buffer: &mut [u8], rows: u64, bytes: u64) -> usize
    requires { 64 ≤ length buffer.old }
    ensures text_put { TextPut buffer.old 0 (end_line rows bytes) buffer.new result }
    ensures upper_bound { result ≤ 64 }
{
    let next = put_number(buffer, 0, b"end ", rows);
    let next = put_number(buffer, next, b" ", bytes);
    put_text(buffer, next, b"\n")
}

// The line of a run that a refusal ended.
fn put_refused_line(buffer: &mut [u8], refusal: Refusal, rows: u64, bytes: u64) -> usize
    requires { 512 ≤ length buffer.old }
    ensures text_put { TextPut buffer.old 0 (refused_line refusal rows bytes) buffer.new result }
    ensures upper_bound { result ≤ 512 }
{
    let why = refusal.why;
    let line = why.line();
    let next = put_head(buffer, line);
    put_standing(buffer, next, refusal.place, rows, bytes)
}

// The line of a run.
pub fn put_run_line(buffer: &mut [u8], ran: Ran) -> usize
    requires { 512 ≤ length buffer.old }
    ensures text_put { TextPut buffer.old 0 (run_line ran) buffer.new result }
    ensures upper_bound { result ≤ 512 }
{
    let stop = ran.stop;
    match stop {
        Ok(()) => put_end_line(buffer, ran.rows, ran.bytes),
        Err(refusal) => put_refused_line(buffer, refusal, ran.rows, ran.bytes),
    }
}
