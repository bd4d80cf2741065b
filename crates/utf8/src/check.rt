// Well-formed UTF-8, in one pass: character by character, by what the Unicode Standard's table lets follow a first byte.
ghost use Rattle.std.specs.Prelude.{◌≡◌, ◌+◌, ◌-◌, ◌≤◌, ◌<◌, ltb, length};
ghost use Rattle.rules.specs.Choice.{◌and◌};
ghost use Rattle.rules.specs.Bytes.{part};
ghost use Rattle.rules.specs.Utf8.{between, lowest, highest, rest_utf8, is_utf8};
ghost use Rattle.utf8.specs.Characters.{Character};

use super::ascii::ascii_eights;

fn between(low: u8, high: u8, b: u8) -> bool
    ensures { result ≡ between low high b }
{
    if low <= b {
        return b <= high;
    }
    false
}

// The bounds of the byte that follows a first one.
fn lowest(b: u8) -> u8
    ensures { result ≡ lowest b }
{
    if b == 0xE0 {
        return 0xA0;
    }
    if b == 0xF0 {
        return 0x90;
    }
    0x80
}

fn highest(b: u8) -> u8
    ensures { result ≡ highest b }
{
    if b == 0xED {
        return 0x9F;
    }
    if b == 0xF4 {
        return 0x8F;
    }
    0xBF
}

// The bytes that follow a first one, one to three: the first between two bounds, the others between 80 and BF.
fn follow(s: &[u8], at: usize, n: usize, low: u8, high: u8) -> bool
    requires { (0 < n) × ((n ≤ 3) × (at + n ≤ length s.now)) }
    ensures { result ≡ rest_utf8 n low high (part s.now at n) }
{
    if !between(low, high, s[at]) {
        return false;
    }
    if n == 1 {
        return true;
    }
    if !between(0x80, 0xBF, s[at + 1]) {
        return false;
    }
    if n == 2 {
        return true;
    }
    between(0x80, 0xBF, s[at + 2])
}

// The same where they lie behind a first byte, if there are so many before the end.
fn whole(s: &[u8], at: usize, end: usize, more: usize, low: u8, high: u8) -> bool
    requires { (0 < more) × ((more ≤ 3) × ((at < end) × (end ≤ length s.now))) }
    ensures { result ≡ ltb more (end - at) and rest_utf8 more low high (part s.now (at + 1) more) }
{
    if more < end - at {
        return follow(s, at + 1, more, low, high);
    }
    false
}

// How many bytes the character at a position has, 0 where none is well formed there. Each count has a way out of its own, so that the
// next turn begins before the tests of this one are done.
fn character(s: &[u8], at: usize, end: usize) -> usize
    requires { (at < end) × (end ≤ length s.now) }
    ensures { Character s.now at end result }
{
    let b = s[at];
    if b < 0x80 {
        return 1;
    }
    if b < 0xC2 {
        return 0;
    }
    if b < 0xE0 {
        if whole(s, at, end, 1, 0x80, 0xBF) {
            return 2;
        }
        return 0;
    }
    if b < 0xF0 {
        if whole(s, at, end, 2, lowest(b), highest(b)) {
            return 3;
        }
        return 0;
    }
    if b < 0xF5 {
        if whole(s, at, end, 3, lowest(b), highest(b)) {
            return 4;
        }
    }
    0
}

// Whether a span of a slice is well-formed UTF-8.
pub fn is_utf8(s: &[u8], start: usize, len: usize) -> bool
    requires { start + len ≤ length s.now }
    ensures { result ≡ is_utf8 (part s.now start len) }
{
    let end = start + len;
    let mut i = ascii_eights(s, start, end);

    // Counted by hand: each turn goes on by as many bytes as its character has.
    while i < end {
        let n = character(s, i, end);
        if n == 0 {
            return false;
        }
        i += n;
    }
    true
}
