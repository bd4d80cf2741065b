// What a wire code says of a node, as the walks ask it: the width of a value or of a tag, and the most children.
ghost use Rattle.std.specs.Prelude.{◌≡◌, ◌≤◌, ◌<◌};
ghost use Rattle.rules.specs.Wire.{form, width_of, maximum};

use rules::Children;

// How many bytes a value has. An arm for every code, nothing's too: from that the compiler makes a jump table, and the
// position of the next node does not wait for a load.
pub fn code_width(code: u8) -> usize
    requires { code < 13 }
    ensures { (result ≡ width_of (form code)) × (result ≤ 32) }
{
    match code {
        0 => 0,
        1 => 1,
        2 => 1,
        3 => 2,
        4 => 4,
        5 => 8,
        6 => 16,
        7 => 32,
        8 => 1,
        9 => 2,
        10 => 4,
        11 => 8,
        12 => 8,
        _ => 0,
    }
}

// How many bytes a tag has. The codes of the types with a tag of one byte are odd.
pub fn tag_width(code: u8) -> usize
    requires { (14 < code) × (code < 19) }
    ensures { result ≡ width_of (form code) }
{
    if code % 2 == 1 { 1 } else { 2 }
}

// How many children a node of this code may have: a tag has to name each, and of a repeated type one tag is the end.
pub fn maximum_of(code: u8) -> Children
    ensures { result ≡ maximum (form code) }
{
    match code {
        0..=14 => Children::Zero,
        15 => Children::UpTo(256),
        16 => Children::UpTo(65536),
        17 => Children::UpTo(255),
        18 => Children::UpTo(65535),
        19 => Children::Any,
        _ => Children::Unknown,
    }
}
