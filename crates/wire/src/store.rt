// Numbers in bytes, little-endian, written.
ghost use Rattle.std.specs.Prelude.{◌≡◌, ◌+◌, ◌≤◌, length};
ghost use Rattle.rules.specs.Bytes.{le, over};

// Byte by byte, little-endian: a compiler makes one store of it, and of each wider one.
pub fn put16(s: &mut [u8], at: usize, x: u64)
    requires { at + 2 ≤ length s.old }
    ensures { s.new ≡ over s.old at (le 2 x) }
{
    let high = x / 256;
    s[at] = (x % 256) as u8;
    s[at + 1] = (high % 256) as u8;
}

pub fn put32(s: &mut [u8], at: usize, x: u64)
    requires { at + 4 ≤ length s.old }
    ensures { s.new ≡ over s.old at (le 4 x) }
{
    put16(s, at, x);
    put16(s, at + 2, x / 65536);
}

pub fn put64(s: &mut [u8], at: usize, x: u64)
    requires { at + 8 ≤ length s.old }
    ensures { s.new ≡ over s.old at (le 8 x) }
{
    put32(s, at, x);
    put32(s, at + 4, x / 4294967296);
}
