// The calls that check: a format, a block that an encoder writes by, a name, and the name of a wire type.
ghost use Rattle.std.specs.Prelude.{◌≡◌};
ghost use Rattle.schema.specs.Slices.{slices};
ghost use Rattle.skiff.specs.Calls.{check_format_given, check_encoder_schema_given, check_name_given, parse_given};

use super::ANSWER;
use answers::{answer_of_checked, answer_of_known, give};
use rules::Format;

// Whether four slices are a format.
pub fn skiff2_check_format(
    table: &[u8],
    names: &[u8],
    references: &[u8],
    registry: &[u8],
    answer: &mut [u8],
) -> u32
    ensures { record { number = result; answer = answer.new }
        ≡ check_format_given (slices table.now names.now references.now registry.now)
        answer.old }
{
    if answer.len() < ANSWER {
        return 1;
    }
    let format = Format {
        table,
        names,
        references,
        registry,
    };
    let checked = schema::check_format(&format);
    give(answer, answer_of_checked(checked))
}

// Whether an encoder may write by a block of the record table.
pub fn skiff2_check_encoder_schema(
    table: &[u8],
    names: &[u8],
    first: u64,
    count: u64,
    answer: &mut [u8],
) -> u32
    ensures { record { number = result; answer = answer.new }
        ≡ check_encoder_schema_given table.now names.now first count answer.old }
{
    if answer.len() < ANSWER {
        return 1;
    }
    let checked = schema::check_encoder_schema(table, names, first, count);
    give(answer, answer_of_checked(checked))
}

// Whether bytes may be a name.
pub fn skiff2_check_name(name: &[u8], answer: &mut [u8]) -> u32
    ensures { record { number = result; answer = answer.new } ≡ check_name_given name.now answer.old }
{
    if answer.len() < ANSWER {
        return 1;
    }
    let checked = schema::check_name(name);
    give(answer, answer_of_checked(checked))
}

// The wire type of a name.
pub fn skiff2_parse(name: &[u8], answer: &mut [u8]) -> u32
    ensures { record { number = result; answer = answer.new } ≡ parse_given name.now answer.old }
{
    if answer.len() < ANSWER {
        return 1;
    }
    let known = wire::parse(name);
    give(answer, answer_of_known(known))
}
