// Answers recorded cases of writing rows. A case has a value table where others have references and registry.
//
// Op 10 encodes it by the block whose first record and count are the halves of `a`, u32 each, at position `b` of an output that is the
// input string before the call. Its line goes on with all that the output holds afterwards, in hex, or `-` for an empty one. Op 11
// checks the value table.
#![tactic(auto)]

use cases::answer_lines::{end_line, write_bytes, write_report};
use cases::next_case;
use cases::reports::{accepted_row, checked, nothing};
use encode::encode;
use rules::{Extent, Refusal, Report, Settings};
use std::io::Read;
use value::check_value_table;

fn written(w: Result<Extent, Refusal>) -> Report {
    match w {
        Ok(row) => accepted_row(row),
        Err(why) => why.in_numbers(),
    }
}

// Encodes a value table and writes its line.
fn encode_row(
    out: &impl Print,
    settings: Settings,
    table: &[u8],
    names: &[u8],
    block: u64,
    records: &[u8],
    payload: &[u8],
    output: &mut [u8],
    position: u64,
) {
    let row = encode(
        settings,
        table,
        names,
        block % 4294967296,
        block / 4294967296,
        records,
        payload,
        output,
        position,
    );
    write_report(out, written(row));
    write_bytes(out, output);
    end_line(out);
}

fn answer_case(
    out: &impl Print,
    op: u64,
    settings: Settings,
    table: &[u8],
    names: &[u8],
    records: &[u8],
    payload: &[u8],
    output: &mut [u8],
    a: u64,
    b: u64,
) {
    match op {
        10 => encode_row(out, settings, table, names, a, records, payload, output, b),
        11 => {
            write_report(out, checked(check_value_table(records, payload)));
            end_line(out);
        }
        _ => {
            write_report(out, nothing());
            end_line(out);
        }
    }
}

// Answers the next case; false where there is none.
fn answer_next(
    cases: &mut impl Read,
    out: &impl Print,
    space: &mut [u8],
    input: &mut [u8],
) -> bool {
    let Some(c) = next_case(cases, space, input) else {
        return false;
    };
    let settings = c.settings;
    let x = c.records;
    let y = c.names;
    let z = c.references;
    let w = c.registry;
    let n = c.input;
    answer_case(
        out,
        c.op,
        settings,
        &space[0..x],
        &space[x..y],
        &space[y..z],
        &space[z..w],
        &mut input[0..n],
        c.a,
        c.b,
    );
    true
}

// A proved loop has to end, and nothing says that the input does: it has more turns than any run takes.
fn answer_all(cases: &mut impl Read, out: &impl Print, space: &mut [u8], input: &mut [u8]) {
    for _ in 0..u64::MAX {
        if !answer_next(cases, out, space, input) {
            return;
        }
    }
}

fn main(rt: HostRuntime) {
    let mut stdin = rt.stdin();
    let mut space = [0u8; 65536];
    let mut input = [0u8; 4096];
    answer_all(&mut stdin, &rt, &mut space, &mut input);
}
