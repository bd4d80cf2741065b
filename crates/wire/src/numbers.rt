// Numbers in bytes, little-endian, read.
ghost use Rattle.std.specs.Prelude.{◌≡◌, ◌+◌, ◌≤◌, ◌<◌, length};
ghost use Rattle.rules.specs.Bytes.{le_at};

pub fn wide(x: u8) -> u64
    ensures { (result ≡ x) × (result < 256) }
{
    x as u64
}

// A function for each width, since a const argument can't be computed. Byte by byte in Horner's form, of which a compiler makes one load. (Of four bytes in two halves it did not everywhere.)
pub fn u16_at(s: &[u8], at: usize) -> u64
    requires { at + 2 ≤ length s.now }
    ensures { result ≡ le_at s.now at 2 }
{
    wide(s[at]) + 256 * wide(s[at + 1])
}

pub fn u32_at(s: &[u8], at: usize) -> u64
    requires { at + 4 ≤ length s.now }
    ensures { result ≡ le_at s.now at 4 }
{
    wide(s[at]) + 256 * (wide(s[at + 1]) + 256 * (wide(s[at + 2]) + 256 * wide(s[at + 3])))
}

pub fn u64_at(s: &[u8], at: usize) -> u64
    requires { at + 8 ≤ length s.now }
    ensures { result ≡ le_at s.now at 8 }
{
    u32_at(s, at) + 4294967296 * u32_at(s, at + 4)
}

// The number in `width` bytes, for the widths that are known only at run time: those of scalars by one load.
pub fn field(s: &[u8], at: usize, width: usize) -> u64
    requires { (width ≤ 8) × (at + width ≤ length s.now) }
    ensures { result ≡ le_at s.now at width }
{
    match width {
        1 => wide(s[at]),
        2 => u16_at(s, at),
        4 => u32_at(s, at),
        8 => u64_at(s, at),
        _ => by_bytes(s, at, width),
    }
}

fn by_bytes(s: &[u8], at: usize, width: usize) -> u64
    requires { (width ≤ 8) × (at + width ≤ length s.now) }
    ensures { result ≡ le_at s.now at width }
{
    let mut v: u64 = 0;
    for k in (0..width).rev() {
        v = v * 256 + wide(s[at + k]);
    }
    v
}
