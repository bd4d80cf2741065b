// The wire types, and what is known of one: its width, how many children it may have.

// A Skiff encoding of one schema node, in the order of the wire codes 0 to 19.
#[derive(Clone, Copy)]
pub enum WireType {
    Nothing,
    Boolean,
    Int8,
    Int16,
    Int32,
    Int64,
    Int128,
    Int256,
    Uint8,
    Uint16,
    Uint32,
    Uint64,
    Double,
    String32,
    Yson32,
    Variant8,
    Variant16,
    RepeatedVariant8,
    RepeatedVariant16,
    Tuple,
}

// How many children a wire code may have.
#[derive(Clone, Copy)]
pub enum Children {
    Zero,
    UpTo(u64),
    Any,
    Unknown,
}
