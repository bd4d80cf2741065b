// The calls that check: a format, a block that an encoder writes by, a name, and the name of a wire type.
ghost use Rattle.std.specs.Prelude.{◌≡◌};
ghost use Rattle.schema.specs.Slices.{slices};
ghost use Rattle.skiff.specs.Calls.{check_format_given, check_encoder_schema_given, check_name_given, parse_given};

// Whether four slices are a format.
#[unsafe(no_mangle)]
pub extern "C" fn skiff2_check_format(
    table: &[u8],
    names: &[u8],
    references: &[u8],
    registry: &[u8],
    answer: &mut [u8],
) -> u32
    ensures { record { number = result; answer = answer.new }
        ≡ check_format_given (slices table.now names.now references.now registry.now)
        answer.old }
{
    skiff::checking::skiff2_check_format(table, names, references, registry, answer)
}

// Whether an encoder may write by a block of the record table.
#[unsafe(no_mangle)]
pub extern "C" fn skiff2_check_encoder_schema(
    table: &[u8],
    names: &[u8],
    first: u64,
    count: u64,
    answer: &mut [u8],
) -> u32
    ensures { record { number = result; answer = answer.new }
        ≡ check_encoder_schema_given table.now names.now first count answer.old }
{
    skiff::checking::skiff2_check_encoder_schema(table, names, first, count, answer)
}

// Whether bytes may be a name.
#[unsafe(no_mangle)]
pub extern "C" fn skiff2_check_name(name: &[u8], answer: &mut [u8]) -> u32
    ensures { record { number = result; answer = answer.new } ≡ check_name_given name.now answer.old }
{
    skiff::checking::skiff2_check_name(name, answer)
}

// The wire type of a name.
#[unsafe(no_mangle)]
pub extern "C" fn skiff2_parse(name: &[u8], answer: &mut [u8]) -> u32
    ensures { record { number = result; answer = answer.new } ≡ parse_given name.now answer.old }
{
    skiff::checking::skiff2_parse(name, answer)
}
