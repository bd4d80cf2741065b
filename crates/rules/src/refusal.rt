// Why a call is refused, and the documents' table of refusals in code: a new refusal is a case and an arm here.
ghost use Rattle.std.specs.Prelude.{◌≡◌, Bool};
ghost use Rattle.rules.specs.Refusals.{line_of, line_with, in_bytes, report_of};

// Why a call is refused: a case for each number of documents 01 and 02, in their order, with the values that it carries. Types are wire
// codes, kinds are kinds of value records.
#[derive(Clone, Copy)]
pub enum Why {
    Setting,
    BadSchemaTable,
    TooDeep,
    UnexpectedChildren {
        wire_type: u8,
        count: u64,
    },
    TooManyChildren {
        wire_type: u8,
        count: u64,
        maximum: u64,
    },
    EmptyTableSchemas,
    UnknownRegistryReference {
        table: u64,
    },
    TableSchemaRootMustBeTuple {
        found: u8,
    },
    TableSchemaMustBeTuple {
        found: u8,
    },
    TableSchemaChildMissingName {
        index: u64,
    },
    MissingTableSchema {
        index: u64,
    },
    Truncated {
        context: u8,
    },
    RowTooLarge {
        limit: u64,
    },
    BlobTooLarge {
        wire_type: u8,
        length: u64,
        limit: u64,
    },
    ValueDoesNotMatchSchema {
        wire_type: u8,
        kind: u8,
    },
    TupleLength {
        expected: u64,
        actual: u64,
    },
    InvalidVariantTag {
        wire_type: u8,
        tag: u64,
        children: u64,
    },
    BadValueTable,
    NoNodeRoom {
        needed: u64,
    },
    NoPayloadRoom {
        needed: u64,
    },
    NoOutputRoom {
        needed: u64,
    },
    NoIndexRoom,
    IndexMismatch,
    NoSuchRow,
    NameNotUtf8,
}

// A refusal: why, and at what place, 0 where there is none.
#[derive(Clone, Copy)]
pub struct Refusal {
    pub why: Why,
    pub place: u64,
}

// A refusal in numbers: the documents' number, the place, and the carried values, 0 where there is none.
#[derive(Clone, Copy)]
pub struct Report {
    pub number: u32,
    pub place: u64,
    pub a: u64,
    pub b: u64,
    pub c: u64,
}

// What a carried value is.
#[derive(Clone, Copy)]
pub enum Label {
    Unused,
    Type,
    Count,
    Maximum,
    Table,
    Index,
    Context,
    Limit,
    Length,
    Kind,
    Expected,
    Actual,
    Tag,
    Children,
    Needed,
}

// What the three carried values are.
#[derive(Clone, Copy)]
pub struct Labels {
    pub first: Label,
    pub second: Label,
    pub third: Label,
}

// A line of the documents' table of refusals: number, name, with blanks after it, whether the place is an offset in the stream
// that is read, and carried values, 0 where there is none, with what each of them is.
#[derive(Clone, Copy)]
pub struct RefusalLine {
    pub number: u32,
    pub name: [u8; 28],
    pub moves: bool,
    pub a: u64,
    pub b: u64,
    pub c: u64,
    pub labels: Labels,
}

// ---- lines by how many values they carry

fn three_values(
    number: u32,
    name: [u8; 28],
    moves: bool,
    a: u64,
    first: Label,
    b: u64,
    second: Label,
    c: u64,
    third: Label,
) -> RefusalLine
    ensures { result ≡ line_with number name moves a first b second c third }
{
    RefusalLine {
        number,
        name,
        moves,
        a,
        b,
        c,
        labels: Labels {
            first,
            second,
            third,
        },
    }
}

fn two_values(
    number: u32,
    name: [u8; 28],
    moves: bool,
    a: u64,
    first: Label,
    b: u64,
    second: Label,
) -> RefusalLine
    ensures { result ≡ line_with number name moves a first b second 0 Label.Unused }
{
    three_values(number, name, moves, a, first, b, second, 0, Label::Unused)
}

fn one_value(number: u32, name: [u8; 28], moves: bool, a: u64, first: Label) -> RefusalLine
    ensures { result ≡ line_with number name moves a first 0 Label.Unused 0 Label.Unused }
{
    two_values(number, name, moves, a, first, 0, Label::Unused)
}

// And its place stays.
fn no_value(number: u32, name: [u8; 28]) -> RefusalLine
    ensures { result ≡ line_with number name Bool.false 0 Label.Unused 0 Label.Unused 0 Label.Unused }
{
    one_value(number, name, false, 0, Label::Unused)
}

// ---- the names. Each is used in one arm below and stands here, since a text in an arm would be a place in memory for the whole of
// `Why::line`, whose derivation has a table of all its places at every step.

const SETTING_NAME: [u8; 28] = *b"Setting                     ";

const BAD_SCHEMA_TABLE_NAME: [u8; 28] = *b"BadSchemaTable              ";

const TOO_DEEP_NAME: [u8; 28] = *b"TooDeep                     ";

const UNEXPECTED_CHILDREN_NAME: [u8; 28] = *b"UnexpectedChildren          ";

const TOO_MANY_CHILDREN_NAME: [u8; 28] = *b"TooManyChildren             ";

const EMPTY_TABLE_SCHEMAS_NAME: [u8; 28] = *b"EmptyTableSchemas           ";

const UNKNOWN_REGISTRY_REFERENCE_NAME: [u8; 28] = *b"UnknownRegistryReference    ";

const TABLE_SCHEMA_ROOT_MUST_BE_TUPLE_NAME: [u8; 28] = *b"TableSchemaRootMustBeTuple  ";

const TABLE_SCHEMA_MUST_BE_TUPLE_NAME: [u8; 28] = *b"TableSchemaMustBeTuple      ";

const TABLE_SCHEMA_CHILD_MISSING_NAME_NAME: [u8; 28] = *b"TableSchemaChildMissingName ";

const MISSING_TABLE_SCHEMA_NAME: [u8; 28] = *b"MissingTableSchema          ";

const TRUNCATED_NAME: [u8; 28] = *b"Truncated                   ";

const ROW_TOO_LARGE_NAME: [u8; 28] = *b"RowTooLarge                 ";

const BLOB_TOO_LARGE_NAME: [u8; 28] = *b"BlobTooLarge                ";

const VALUE_DOES_NOT_MATCH_SCHEMA_NAME: [u8; 28] = *b"ValueDoesNotMatchSchema     ";

const TUPLE_LENGTH_NAME: [u8; 28] = *b"TupleLength                 ";

const INVALID_VARIANT_TAG_NAME: [u8; 28] = *b"InvalidVariantTag           ";

const BAD_VALUE_TABLE_NAME: [u8; 28] = *b"BadValueTable               ";

const NO_NODE_ROOM_NAME: [u8; 28] = *b"NoNodeRoom                  ";

const NO_PAYLOAD_ROOM_NAME: [u8; 28] = *b"NoPayloadRoom               ";

const NO_OUTPUT_ROOM_NAME: [u8; 28] = *b"NoOutputRoom                ";

const NO_INDEX_ROOM_NAME: [u8; 28] = *b"NoIndexRoom                 ";

const INDEX_MISMATCH_NAME: [u8; 28] = *b"IndexMismatch               ";

const NO_SUCH_ROW_NAME: [u8; 28] = *b"NoSuchRow                   ";

const NAME_NOT_UTF8_NAME: [u8; 28] = *b"NameNotUtf8                 ";

impl Why {
    // The line of the table that all else goes by: a new refusal is an arm here.
    pub fn line(self) -> RefusalLine
        ensures { result ≡ in_bytes (line_of self) }
    {
        match self {
            Why::Setting => no_value(1, SETTING_NAME),
            Why::BadSchemaTable => no_value(2, BAD_SCHEMA_TABLE_NAME),
            Why::TooDeep => no_value(3, TOO_DEEP_NAME),
            Why::UnexpectedChildren { wire_type, count } => two_values(
                4,
                UNEXPECTED_CHILDREN_NAME,
                false,
                wire_type as u64,
                Label::Type,
                count,
                Label::Count,
            ),
            Why::TooManyChildren {
                wire_type,
                count,
                maximum,
            } => three_values(
                5,
                TOO_MANY_CHILDREN_NAME,
                false,
                wire_type as u64,
                Label::Type,
                count,
                Label::Count,
                maximum,
                Label::Maximum,
            ),
            Why::EmptyTableSchemas => no_value(6, EMPTY_TABLE_SCHEMAS_NAME),
            Why::UnknownRegistryReference { table } => one_value(
                7,
                UNKNOWN_REGISTRY_REFERENCE_NAME,
                false,
                table,
                Label::Table,
            ),
            Why::TableSchemaRootMustBeTuple { found } => one_value(
                8,
                TABLE_SCHEMA_ROOT_MUST_BE_TUPLE_NAME,
                false,
                found as u64,
                Label::Type,
            ),
            Why::TableSchemaMustBeTuple { found } => one_value(
                9,
                TABLE_SCHEMA_MUST_BE_TUPLE_NAME,
                false,
                found as u64,
                Label::Type,
            ),
            Why::TableSchemaChildMissingName { index } => one_value(
                10,
                TABLE_SCHEMA_CHILD_MISSING_NAME_NAME,
                false,
                index,
                Label::Index,
            ),
            Why::MissingTableSchema { index } => one_value(
                11,
                MISSING_TABLE_SCHEMA_NAME,
                true,
                index,
                Label::Table,
            ),
            Why::Truncated { context } => one_value(
                12,
                TRUNCATED_NAME,
                true,
                context as u64,
                Label::Context,
            ),
            Why::RowTooLarge { limit } => one_value(
                13,
                ROW_TOO_LARGE_NAME,
                true,
                limit,
                Label::Limit,
            ),
            Why::BlobTooLarge {
                wire_type,
                length,
                limit,
            } => three_values(
                14,
                BLOB_TOO_LARGE_NAME,
                true,
                wire_type as u64,
                Label::Type,
                length,
                Label::Length,
                limit,
                Label::Limit,
            ),
            Why::ValueDoesNotMatchSchema { wire_type, kind } => two_values(
                15,
                VALUE_DOES_NOT_MATCH_SCHEMA_NAME,
                false,
                wire_type as u64,
                Label::Type,
                kind as u64,
                Label::Kind,
            ),
            Why::TupleLength { expected, actual } => two_values(
                16,
                TUPLE_LENGTH_NAME,
                false,
                expected,
                Label::Expected,
                actual,
                Label::Actual,
            ),
            Why::InvalidVariantTag {
                wire_type,
                tag,
                children,
            } => three_values(
                17,
                INVALID_VARIANT_TAG_NAME,
                true,
                wire_type as u64,
                Label::Type,
                tag,
                Label::Tag,
                children,
                Label::Children,
            ),
            Why::BadValueTable => no_value(18, BAD_VALUE_TABLE_NAME),
            Why::NoNodeRoom { needed } => one_value(
                19,
                NO_NODE_ROOM_NAME,
                true,
                needed,
                Label::Needed,
            ),
            Why::NoPayloadRoom { needed } => one_value(
                20,
                NO_PAYLOAD_ROOM_NAME,
                true,
                needed,
                Label::Needed,
            ),
            Why::NoOutputRoom { needed } => one_value(
                21,
                NO_OUTPUT_ROOM_NAME,
                false,
                needed,
                Label::Needed,
            ),
            Why::NoIndexRoom => no_value(30, NO_INDEX_ROOM_NAME),
            Why::IndexMismatch => no_value(31, INDEX_MISMATCH_NAME),
            Why::NoSuchRow => no_value(32, NO_SUCH_ROW_NAME),
            Why::NameNotUtf8 => no_value(33, NAME_NOT_UTF8_NAME),
        }
    }
}

impl Refusal {
    // Those that have no place.
    pub const SETTING: Refusal = Refusal {
        why: Why::Setting,
        place: 0,
    };

    pub const BAD_SCHEMA_TABLE: Refusal = Refusal {
        why: Why::BadSchemaTable,
        place: 0,
    };

    pub const TOO_DEEP: Refusal = Refusal {
        why: Why::TooDeep,
        place: 0,
    };

    pub const EMPTY_TABLE_SCHEMAS: Refusal = Refusal {
        why: Why::EmptyTableSchemas,
        place: 0,
    };

    pub const BAD_VALUE_TABLE: Refusal = Refusal {
        why: Why::BadValueTable,
        place: 0,
    };

    pub const NO_INDEX_ROOM: Refusal = Refusal {
        why: Why::NoIndexRoom,
        place: 0,
    };

    pub const INDEX_MISMATCH: Refusal = Refusal {
        why: Why::IndexMismatch,
        place: 0,
    };

    pub const NO_SUCH_ROW: Refusal = Refusal {
        why: Why::NoSuchRow,
        place: 0,
    };

    pub const NAME_NOT_UTF8: Refusal = Refusal {
        why: Why::NameNotUtf8,
        place: 0,
    };

    // The refusal in numbers, for hosts that take no enum.
    #[tactic(auto, unfolding(crate::specs::Refusals::report_of, crate::specs::Refusals::in_bytes))]
    pub fn in_numbers(self) -> Report
        ensures { result ≡ report_of self }
    {
        let why = self.why;
        let line = why.line();
        Report {
            number: line.number,
            place: self.place,
            a: line.a,
            b: line.b,
            c: line.c,
        }
    }
}
