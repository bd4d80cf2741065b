// What the calls answer, where they refuse nothing: each answers a `Result` with a `Refusal` in its other case. A check answers nothing more, a row
// that is read is an `Extent`, or `None` at the stream's end, a row that is written an `Extent`, and a text the number of its bytes.
use super::refusal::Refusal;

// What a table schema is checked for: to stand in a format, or to encode with.
#[derive(Clone, Copy)]
pub enum Purpose {
    Format,
    Encoder,
}

// What settings, slices, position and format come to, where they are not refused: a row may be read, or the stream ends there.
#[derive(Clone, Copy)]
pub enum Door {
    Open,
    End,
}

// What an accepted row takes: its table, its bytes in the stream, and the records and payload bytes of its value table.
#[derive(Clone, Copy)]
pub struct Extent {
    pub table: u64,
    pub bytes: u64,
    pub records: u64,
    pub payload: u64,
}

// A row of a stream: where it begins, how long it is, and which table it is of.
#[derive(Clone, Copy)]
pub struct RowSpan {
    pub offset: u64,
    pub size: u64,
    pub table: u64,
}

// What a run answers: the rows it accepted, their bytes, and where it stopped: at the stream's end, or at a refusal.
#[derive(Clone, Copy)]
pub struct Ran {
    pub rows: u64,
    pub bytes: u64,
    pub stop: Result<(), Refusal>,
}
