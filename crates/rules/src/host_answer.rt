// What a host is told of one value record.

// The value of one record: a case with its data. The language's doubles have one NaN and no bits of it, so that a NaN has a
// case of its own, with its bits.
#[derive(Clone, Copy)]
pub enum Scalar {
    Nothing,
    Truth(bool),
    Signed(i64),
    Unsigned(u64),
    Double(f64),
    NotANumber(u64),
    // Where the payload starts, and its length.
    Payload(u64, u64),
    // How many children.
    Children(u64),
}
