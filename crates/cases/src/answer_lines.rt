// A line of output, from its start to its end.
ghost use Rattle.std.specs.Prelude.{◌≤◌};

use crate::reports::stopped;
use rules::{Ran, Report};
use wire::wide;

// A failed write is not told: there is nowhere to tell it.
fn write_text(out: &impl Print, text: &[u8]) {
    let _ = out.write_all(text);
}

// The same, of a number in decimal digits.
fn write_decimal(out: &impl Print, n: u64) {
    let _ = out.print(n);
}

// Most are zeros, which take no division.
pub fn write_number(out: &impl Print, n: u64) {
    if n == 0 {
        write_text(out, b" 0");
        return;
    }
    write_text(out, b" ");
    write_decimal(out, n);
}

pub fn write_report(out: &impl Print, r: Report) {
    write_decimal(out, r.number as u64);
    write_number(out, r.place);
    write_number(out, r.a);
    write_number(out, r.b);
    write_number(out, r.c);
}

// What a run answers: why it stopped, and then the rows and bytes that it accepted.
pub fn write_ran(out: &impl Print, ran: Ran) {
    let stop = ran.stop;
    write_report(out, stopped(stop));
    write_number(out, ran.rows);
    write_number(out, ran.bytes);
}

pub fn end_line(out: &impl Print) {
    write_text(out, b"\n");
}

const DIGITS: [u8; 16] = *b"0123456789abcdef";

// A lent slice has at most 4,096 bytes, which a line has room for; one over that counts as that.
pub fn shown(bytes: u64) -> usize
    ensures { (result ≤ bytes) × (result ≤ 4096) }
{
    if 4096 < bytes {
        return 4096;
    }
    bytes as usize
}

// All bytes of a slice, in hex, or a dash where there is none.
pub fn write_bytes(out: &impl Print, s: &[u8]) {
    if s.len() == 0 {
        write_text(out, b" -");
        return;
    }
    write_text(out, b" ");
    let n = shown(s.len() as u64);
    let mut text = [0u8; 8192];
    for (digits, byte) in text.chunks_exact_mut(2).zip(&s[..n]) {
        let byte = wide(*byte) as usize;
        digits[0] = DIGITS[byte / 16];
        digits[1] = DIGITS[byte % 16];
    }
    write_text(out, &text[0..2 * n]);
}
