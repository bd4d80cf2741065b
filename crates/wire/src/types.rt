// Wire types: each with its code, and with its width where all its values have one.
ghost use Rattle.std.specs.Prelude.{◌≡◌};
ghost use Rattle.rules.specs.Wire.{type_of, code_of, fixed_width};

use super::codes;
use rules::WireType;

// In the order of the wire codes.
pub(super) const TYPES: [WireType; 20] = [
    WireType::Nothing,
    WireType::Boolean,
    WireType::Int8,
    WireType::Int16,
    WireType::Int32,
    WireType::Int64,
    WireType::Int128,
    WireType::Int256,
    WireType::Uint8,
    WireType::Uint16,
    WireType::Uint32,
    WireType::Uint64,
    WireType::Double,
    WireType::String32,
    WireType::Yson32,
    WireType::Variant8,
    WireType::Variant16,
    WireType::RepeatedVariant8,
    WireType::RepeatedVariant16,
    WireType::Tuple,
];

// (By names of their own and not by `TryFrom` and `From`: theorems name them.)
pub fn from_code(code: u8) -> Option<WireType>
    ensures { result ≡ type_of code }
{
    if code < 20 {
        Some(TYPES[code as usize])
    } else {
        None
    }
}

pub fn code_of(t: WireType) -> u8
    ensures { result ≡ code_of t }
{
    match t {
        WireType::Nothing => 0,
        WireType::Boolean => 1,
        WireType::Int8 => 2,
        WireType::Int16 => 3,
        WireType::Int32 => 4,
        WireType::Int64 => 5,
        WireType::Int128 => 6,
        WireType::Int256 => 7,
        WireType::Uint8 => 8,
        WireType::Uint16 => 9,
        WireType::Uint32 => 10,
        WireType::Uint64 => 11,
        WireType::Double => 12,
        WireType::String32 => 13,
        WireType::Yson32 => 14,
        WireType::Variant8 => 15,
        WireType::Variant16 => 16,
        WireType::RepeatedVariant8 => 17,
        WireType::RepeatedVariant16 => 18,
        WireType::Tuple => 19,
    }
}

pub fn fixed_width(t: WireType) -> Option<u64>
    ensures { result ≡ fixed_width t }
{
    let code = code_of(t);
    if code < 13 {
        Some(codes::code_width(code) as u64)
    } else {
        None
    }
}
