// Answers recorded cases of the index of a stream. A case's fourth string is the registry, as many bytes of it as the low half of `b` says,
// and behind it the stream; its fifth is the index before the call.
//
// Op 12 builds the index, op 13 checks it, op 14 extends it from an old count of `a`. Their lines go on with the rows and bytes of the run
// and, but for the check, which writes nothing, with all that the index slice holds afterwards, in hex, or `-` for an empty one. Op 15
// decodes row `a` into two lent slices, whose lengths are the halves of the high half of `b`: u16 for the value records, then u16 for the
// payload, each at most 4,096. Its line goes on with all that both slices hold afterwards; every byte of them was a5 before the call.
#![tactic(auto)]

mod decoding;

ghost use Rattle.std.specs.Prelude.{◌≤◌, length};

use cases::answer_lines::{end_line, write_bytes, write_ran, write_report};
use cases::next_case;
use cases::reports::nothing;
use decoding::decode_row;
use index::{build_index, check_index, extend_index};
use rules::{Format, Settings};
use std::io::Read;

// Builds an index and writes its line.
fn build(out: &impl Print, settings: Settings, format: &Format, input: &[u8], index: &mut [u8]) {
    write_ran(out, build_index(settings, format, input, index));
    write_bytes(out, index);
    end_line(out);
}

// Extends an index and writes its line.
fn extend(
    out: &impl Print,
    settings: Settings,
    format: &Format,
    input: &[u8],
    old: u64,
    index: &mut [u8],
) {
    write_ran(out, extend_index(settings, format, input, old, index));
    write_bytes(out, index);
    end_line(out);
}

fn answer_index(
    out: &impl Print,
    op: u64,
    settings: Settings,
    format: &Format,
    input: &[u8],
    index: &mut [u8],
    a: u64,
    sizes: u64,
) {
    match op {
        12 => build(out, settings, format, input, index),
        13 => {
            write_ran(out, check_index(settings, format, input, index));
            end_line(out);
        }
        14 => extend(out, settings, format, input, a, index),
        15 => decode_row(out, settings, format, input, index, a, sizes),
        _ => {
            write_report(out, nothing());
            end_line(out);
        }
    }
}

// Where the registry ends in the string that the stream stands in, too: one past the string's end counts as that.
fn registry_end(strings: &[u8], bytes: u64) -> usize
    ensures { result ≤ length strings.now }
{
    if (strings.len() as u64) < bytes {
        return strings.len();
    }
    bytes as usize
}

fn answer_case(
    out: &impl Print,
    op: u64,
    settings: Settings,
    table: &[u8],
    names: &[u8],
    references: &[u8],
    strings: &[u8],
    index: &mut [u8],
    a: u64,
    b: u64,
) {
    let end = registry_end(strings, b % 4294967296);
    answer_index(
        out,
        op,
        settings,
        &Format {
            table,
            names,
            references,
            registry: &strings[0..end],
        },
        &strings[end..strings.len()],
        index,
        a,
        b / 4294967296,
    );
}

// Answers the next case; false where there is none.
fn answer_next(
    cases: &mut impl Read,
    out: &impl Print,
    space: &mut [u8],
    index: &mut [u8],
) -> bool {
    let Some(c) = next_case(cases, space, index) else {
        return false;
    };
    let settings = c.settings;
    let x = c.records;
    let y = c.names;
    let z = c.references;
    let w = c.registry;
    let n = c.input;
    answer_case(
        out,
        c.op,
        settings,
        &space[0..x],
        &space[x..y],
        &space[y..z],
        &space[z..w],
        &mut index[0..n],
        c.a,
        c.b,
    );
    true
}

// A proved loop has to end, and nothing says that the input does: it has more turns than any run takes.
fn answer_all(cases: &mut impl Read, out: &impl Print, space: &mut [u8], index: &mut [u8]) {
    for _ in 0..u64::MAX {
        if !answer_next(cases, out, space, index) {
            return;
        }
    }
}

fn main(rt: HostRuntime) {
    let mut stdin = rt.stdin();
    let mut space = [0u8; 65536];
    let mut index = [0u8; 4096];
    answer_all(&mut stdin, &rt, &mut space, &mut index);
}
