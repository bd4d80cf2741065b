// Byte strings in order.
ghost use Rattle.std.specs.Prelude.{◌≡◌, ◌+◌, ◌≤◌, length};
ghost use Rattle.rules.specs.Bytes.{part, order, is_equal};
ghost use Rattle.wire.specs.Heads.{be_at};

use super::numbers::wide;
use std::cmp::Ordering;

// The first four bytes of a span as one number, the first counting most: a compiler makes one load of it.
fn head(s: &[u8], at: usize) -> u64
    requires { at + 4 ≤ length s.now }
    ensures { result ≡ be_at s.now at 4 }
{
    256 * (256 * (256 * wide(s[at]) + wide(s[at + 1])) + wide(s[at + 2])) + wide(s[at + 3])
}

#[inline(always)]
fn by_bytes(s: &[u8], a: usize, la: usize, t: &[u8], b: usize, lb: usize) -> Ordering
    requires { (a + la ≤ length s.now) × (b + lb ≤ length t.now) }
    ensures { result ≡ order (part s.now a la) (part t.now b lb) }
{
    for k in 0..la {
        if lb <= k {
            return Ordering::Greater;
        }
        let x = s[a + k];
        let y = t[b + k];
        if x < y {
            return Ordering::Less;
        }
        if y < x {
            return Ordering::Greater;
        }
    }
    la.cmp(&lb)
}

// A span of one slice and a span of another: bytes as unsigned numbers, a proper prefix first. Most names differ in their first four
// bytes, which are compared as one number. After those the library's order goes many bytes at a time; what is left of a short name is
// done byte by byte before a call of it would be.
#[inline(always)]
pub fn order_of(s: &[u8], a: usize, la: usize, t: &[u8], b: usize, lb: usize) -> Ordering
    requires { (a + la ≤ length s.now) × (b + lb ≤ length t.now) }
    ensures { result ≡ order (part s.now a la) (part t.now b lb) }
{
    if la < 4 || lb < 4 {
        return by_bytes(s, a, la, t, b, lb);
    }
    let head_s = head(s, a);
    let head_t = head(t, b);
    if head_s < head_t {
        return Ordering::Less;
    }
    if head_t < head_s {
        return Ordering::Greater;
    }
    if la < 8 || lb < 8 {
        return by_bytes(s, a + 4, la - 4, t, b + 4, lb - 4);
    }
    s[a..a + la].cmp(&t[b..b + lb])
}

// Two spans of one slice.
#[inline(always)]
pub fn compare(s: &[u8], a: usize, la: usize, b: usize, lb: usize) -> Ordering
    requires { (a + la ≤ length s.now) × (b + lb ≤ length s.now) }
    ensures { result ≡ order (part s.now a la) (part s.now b lb) }
{
    order_of(s, a, la, s, b, lb)
}

pub fn is_equal(o: Ordering) -> bool
    ensures { result ≡ is_equal o }
{
    o.is_eq()
}
