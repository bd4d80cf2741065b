// ASCII, eight bytes at a time.
ghost use Rattle.std.specs.Prelude.{◌≡◌, ◌+◌, ◌≤◌, length};
ghost use Rattle.utf8.specs.Ascii.{ascii_at, Reached, short_ascii};

// The highest bit of each of eight bytes, which none of ASCII has.
const HIGH_BITS: u64 = 0x8080_8080_8080_8080;

// Whether the eight bytes at a position are ASCII: one load and one test.
fn eight_ascii(s: &[u8], at: usize) -> bool
    requires { at + 8 ≤ length s.now }
    ensures { result ≡ ascii_at s.now at 8 }
{
    let word = wire::u64_at(s, at);
    word & HIGH_BITS == 0
}

// Over the eights from `at` on that are ASCII: where the first begins that is not, or of which fewer than eight are left.
pub fn ascii_eights(s: &[u8], at: usize, end: usize) -> usize
    requires { (at ≤ end) × (end ≤ length s.now) }
    ensures { Reached s.now at end result }
{
    // Counted by hand: where it stops is the answer, and no iterator over eights tells its place in the slice.
    let mut i = at;
    while 8 <= end - i {
        if !eight_ascii(s, i) {
            return i;
        }
        i += 8;
    }
    i
}

// A slice of few bytes, one after another.
fn few_ascii(s: &[u8]) -> bool
    ensures { result ≡ ascii_at s.now 0 (length s.now) }
{
    s.iter().all(|byte| *byte < 128)
}

// Whether all bytes are ASCII. The last eight are looked at together, though some of them may have been before.
pub fn is_ascii(s: &[u8]) -> bool
    ensures { result ≡ ascii_at s.now 0 (length s.now) }
{
    let n = s.len();
    if n < 8 {
        return few_ascii(s);
    }
    let reached = ascii_eights(s, 0, n);
    if 8 <= n - reached {
        return false;
    }
    eight_ascii(s, n - 8)
}

// Whether a slice has at most so many bytes, and all of them are ASCII: what it costs is bounded by what the caller names.
pub fn short_ascii(s: &[u8], most: usize) -> bool
    ensures { result ≡ short_ascii s.now most }
{
    if s.len() <= most {
        return is_ascii(s);
    }
    false
}
