// What each op answers, in numbers.
use cases::reports::{accepted, checked, nothing, read};
use row::skip_row;
use rules::{Format, Located, Refusal, Report, Settings, Why};
use schema::format::table_schema;
use schema::{check_encoder_schema, check_format, check_schema};
use wire::{code_of, fixed_width, from_code, parse};

fn parsed(name: &[u8]) -> Report {
    let k = parse(name);
    match k {
        Some(t) => accepted(code_of(t) as u64, 0),
        None => nothing(),
    }
}

fn width(code: u64) -> Report {
    if 255 < code {
        return nothing();
    }
    let k = from_code(code as u8);
    let Some(t) = k else {
        return nothing();
    };
    let w = fixed_width(t);
    match w {
        Some(n) => accepted(n, 0),
        None => nothing(),
    }
}

fn located(format: &Format, t: u64) -> Report {
    let judged = check_format(format);
    let Ok(()) = judged else {
        return checked(judged);
    };
    let at = table_schema(format, t);
    match at {
        Located::Block(first, count) => accepted(first, count),
        Located::NoTable => Refusal {
            why: Why::MissingTableSchema { index: t },
            place: 0,
        }
        .in_numbers(),
        Located::NoEntry => Refusal {
            why: Why::UnknownRegistryReference { table: t },
            place: t,
        }
        .in_numbers(),
    }
}

pub fn answer(
    op: u64,
    settings: Settings,
    format: &Format,
    input: &[u8],
    a: u64,
    b: u64,
) -> Report {
    match op {
        1 => parsed(format.names),
        2 => width(a),
        3 => checked(check_schema(format.table, format.names, a, b)),
        4 => checked(check_encoder_schema(format.table, format.names, a, b)),
        5 => checked(check_format(format)),
        6 => located(format, a),
        7 => read(skip_row(settings, format, input, a)),
        _ => nothing(),
    }
}
