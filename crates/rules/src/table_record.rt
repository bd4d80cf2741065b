// The records of the flat tables, and where a table's schema stands among them.

// A schema record. Its code is a number and no `WireType`, since any byte may stand there: whether it is a type's is what the form is checked for.
#[derive(Clone, Copy)]
pub struct Node {
    pub code: u8,
    pub named: u8,
    pub len: u64,
    pub start: u64,
    pub first: u64,
    pub children: u64,
}

// A table reference: an inline block by first record and record count, or a registry name by start and length. `spare` and
// `rest` are the bytes that have to be 0.
#[derive(Clone, Copy)]
pub struct Reference {
    pub kind: u8,
    pub spare: u64,
    pub start: u64,
    pub len: u64,
    pub rest: u64,
}

// A registry entry: a name in the store and a block of the record table.
#[derive(Clone, Copy)]
pub struct Entry {
    pub start: u64,
    pub len: u64,
    pub first: u64,
    pub count: u64,
}

// A value record, of which any byte may stand in a slice, so that the kind is a number: its kind; a byte that has to be 0; the tag by which the parent chose the node; the child count or the payload's length;
// the payload's start or a scalar's wire bytes.
#[derive(Clone, Copy)]
pub struct ValueRecord {
    pub kind: u8,
    pub spare: u8,
    pub tag: u64,
    pub size: u64,
    pub content: u64,
}

// Where a table's schema stands in the record table: first record and record count. No `Result`: the two other cases are no refusals yet, a format and
// a row each make their own of them, and every caller meets all three.
#[derive(Clone, Copy)]
pub enum Located {
    Block(u64, u64),
    NoTable,
    NoEntry,
}
