// Wire types by name.
ghost use Rattle.std.specs.Prelude.{◌≡◌};
ghost use Rattle.rules.specs.Bytes.{order, is_equal};
ghost use Rattle.rules.specs.Names.{name_of, parsed};

use super::types::TYPES;
use rules::WireType;

// Where some bytes of a slice begin, and how many they are.
#[derive(Clone, Copy)]
pub struct Span {
    pub start: usize,
    pub len: usize,
}

// The one table for both directions.
fn name_of(t: WireType) -> &'static [u8]
    ensures { result.now ≡ name_of t }
{
    match t {
        WireType::Nothing => b"nothing",
        WireType::Boolean => b"boolean",
        WireType::Int8 => b"int8",
        WireType::Int16 => b"int16",
        WireType::Int32 => b"int32",
        WireType::Int64 => b"int64",
        WireType::Int128 => b"int128",
        WireType::Int256 => b"int256",
        WireType::Uint8 => b"uint8",
        WireType::Uint16 => b"uint16",
        WireType::Uint32 => b"uint32",
        WireType::Uint64 => b"uint64",
        WireType::Double => b"double",
        WireType::String32 => b"string32",
        WireType::Yson32 => b"yson32",
        WireType::Variant8 => b"variant8",
        WireType::Variant16 => b"variant16",
        WireType::RepeatedVariant8 => b"repeated_variant8",
        WireType::RepeatedVariant16 => b"repeated_variant16",
        WireType::Tuple => b"tuple",
    }
}

pub fn is_name(name: &[u8], t: WireType) -> bool
    ensures { result ≡ is_equal (order name.now (name_of t)) }
{
    let known = name_of(t);
    name == known
}

// The wire type of a name: any bytes, and nothing trimmed.
pub fn parse(name: &[u8]) -> Option<WireType>
    ensures { result ≡ parsed name.now }
{
    for t in TYPES {
        if is_name(name, t) {
            return Some(t);
        }
    }
    None
}
