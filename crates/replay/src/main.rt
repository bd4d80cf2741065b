// Answers cases of the schema side and of reading rows: the recorded ones in the gate, and those of the differential run of the schema
// side. A line goes on, for a run (op 8), with the rows and bytes that it accepted.
//
// Op 9 decodes the row at `a` into two lent slices, whose lengths are the halves of `b`: u32 for the value records, then u32 for the
// payload, each at most 4,096. Its line goes on with all that both slices hold afterwards, in hex, or `-` for an empty one; every byte
// of them was a5 before the call.
#![tactic(auto)]

mod decoding;
mod ops;

use cases::answer_lines::{end_line, write_ran, write_report};
use cases::next_case;
use decoding::decode_row;
use ops::answer;
use rules::{Format, Settings};
use run::run;
use std::io::Read;

fn answer_case(
    out: &impl Print,
    op: u64,
    settings: Settings,
    format: &Format,
    input: &[u8],
    a: u64,
    b: u64,
) {
    match op {
        8 => {
            write_ran(out, run(settings, format, input));
            end_line(out);
        }
        9 => decode_row(out, settings, format, input, a, b),
        _ => {
            write_report(out, answer(op, settings, format, input, a, b));
            end_line(out);
        }
    }
}

// Answers the next case; false where there is none.
fn answer_next(
    cases: &mut impl Read,
    out: &impl Print,
    space: &mut [u8],
    input: &mut [u8],
) -> bool {
    let Some(c) = next_case(cases, space, input) else {
        return false;
    };
    let settings = c.settings;
    let x = c.records;
    let y = c.names;
    let z = c.references;
    let w = c.registry;
    let n = c.input;
    answer_case(
        out,
        c.op,
        settings,
        &Format {
            table: &space[0..x],
            names: &space[x..y],
            references: &space[y..z],
            registry: &space[z..w],
        },
        &input[0..n],
        c.a,
        c.b,
    );
    true
}

// A proved loop has to end, and nothing says that the input does: it has more turns than any run takes.
fn answer_all(cases: &mut impl Read, out: &impl Print, space: &mut [u8], input: &mut [u8]) {
    for _ in 0..u64::MAX {
        if !answer_next(cases, out, space, input) {
            return;
        }
    }
}

fn main(rt: HostRuntime) {
    let mut stdin = rt.stdin();
    let mut space = [0u8; 4194304];
    let mut input = [0u8; 4096];
    answer_all(&mut stdin, &rt, &mut space, &mut input);
}
