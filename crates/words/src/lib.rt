// The words for the values that a refusal carries, each in twenty bytes, with blanks after it.
#![tactic(auto)]

ghost use Rattle.std.specs.Prelude.{◌+◌, ◌*◌, ◌≤◌, ◌≡◌, length};
ghost use Rattle.rules.specs.Bytes.{part};
ghost use Rattle.rules.specs.Lines.{word, code_word, context_word, labelled, word_of};
ghost use Rattle.rules.specs.Listing.{kind_word};

use rules::Label;

// No word at all: a constant, since a text in an arm would be a place in memory for the whole function.
const NO_WORD: [u8; 20] = *b"                    ";

// The word of a table at an index.
fn word_at(table: &[u8], index: usize) -> [u8; 20]
    requires { 20 * index + 20 ≤ length table.now }
    ensures { (result ≡ part table.now (20 * index) 20) × (length result ≡ 20) }
{
    let from = 20 * index;
    let mut word = [b' '; 20];
    word.copy_from_slice(&table[from..from + 20]);
    word
}

// The name of a wire code's type.
fn code_word(code: u64) -> [u8; 20]
    ensures { (word result ≡ code_word code) × (length result ≡ 20) }
{
    if 20 <= code {
        return NO_WORD;
    }
    word_at(
        b"nothing             \
          boolean             \
          int8                \
          int16               \
          int32               \
          int64               \
          int128              \
          int256              \
          uint8               \
          uint16              \
          uint32              \
          uint64              \
          double              \
          string32            \
          yson32              \
          variant8            \
          variant16           \
          repeated_variant8   \
          repeated_variant16  \
          tuple               ",
        code as usize,
    )
}

// What a stream was cut in. A fixed type has its name.
fn context_word(context: u64) -> [u8; 20]
    ensures { (word result ≡ context_word context) × (length result ≡ 20) }
{
    if context < 13 {
        return code_word(context);
    }
    if 18 <= context {
        return NO_WORD;
    }
    word_at(
        b"blob-length         \
          blob-payload        \
          variant8-tag        \
          variant16-tag       \
          table-tag           ",
        (context - 13) as usize,
    )
}

// The name of a value record's kind. A scalar's and a blob's is its wire type's.
pub fn kind_word(kind: u8) -> [u8; 20]
    ensures { (word result ≡ kind_word kind) × (length result ≡ 20) }
{
    if kind < 15 {
        return code_word(kind as u64);
    }
    if 18 <= kind {
        return NO_WORD;
    }
    word_at(
        b"variant             \
          repeated_variant    \
          tuple               ",
        (kind - 15) as usize,
    )
}

// What a carried value is.
pub fn label_word(label: Label) -> [u8; 20]
    ensures { (word result ≡ labelled label) × (length result ≡ 20) }
{
    match label {
        Label::Unused => NO_WORD,
        Label::Type => *b"type                ",
        Label::Count => *b"count               ",
        Label::Maximum => *b"maximum             ",
        Label::Table => *b"table               ",
        Label::Index => *b"index               ",
        Label::Context => *b"context             ",
        Label::Limit => *b"limit               ",
        Label::Length => *b"length              ",
        Label::Kind => *b"kind                ",
        Label::Expected => *b"expected            ",
        Label::Actual => *b"actual              ",
        Label::Tag => *b"tag                 ",
        Label::Children => *b"children            ",
        Label::Needed => *b"needed              ",
    }
}

// The word for a carried value, by what it is: types and contexts have one.
pub fn word_of(label: Label, value: u64) -> [u8; 20]
    ensures { (word result ≡ word_of label value) × (length result ≡ 20) }
{
    match label {
        Label::Type => code_word(value),
        Label::Context => context_word(value),
        Label::Unused => NO_WORD,
        Label::Count => NO_WORD,
        Label::Maximum => NO_WORD,
        Label::Table => NO_WORD,
        Label::Index => NO_WORD,
        Label::Limit => NO_WORD,
        Label::Length => NO_WORD,
        Label::Kind => NO_WORD,
        Label::Expected => NO_WORD,
        Label::Actual => NO_WORD,
        Label::Tag => NO_WORD,
        Label::Children => NO_WORD,
        Label::Needed => NO_WORD,
    }
}
