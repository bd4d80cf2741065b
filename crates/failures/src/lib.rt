// The lines that tell why a run did not begin or did not come to an end: of a file, not of document 01.
#![tactic(auto)]

ghost use Rattle.std.specs.Prelude.{◌+◌, ◌≤◌, length};
ghost use Rattle.failures.specs.Failures.{reason, failure_line, usage_line};
ghost use Rattle.lines.specs.Puts.{TextPut};

use lines::{put_number, put_text};

// What is wrong with a file. In the last case a row does not end within the room that there is for the stream.
#[derive(Clone, Copy)]
pub enum Failure {
    CannotOpen,
    CannotRead,
    TooLong,
    NoRoom { position: u64, room: u64 },
}

fn put_no_room(buffer: &mut [u8], position: u64, room: u64) -> usize
    requires { 128 ≤ length buffer.old }
    ensures text_put { TextPut buffer.old 0 (reason (Failure.NoRoom position room)) buffer.new result }
    ensures upper_bound { result ≤ 128 }
{
    let next = put_number(buffer, 0, b"the row at ", position);
    let next = put_number(buffer, next, b" does not end within the ", room);
    put_text(buffer, next, b" bytes that the tables leave: ")
}

fn put_reason(buffer: &mut [u8], failure: Failure) -> usize
    requires { 128 ≤ length buffer.old }
    ensures text_put { TextPut buffer.old 0 (reason failure) buffer.new result }
    ensures upper_bound { result ≤ 128 }
{
    match failure {
        Failure::CannotOpen => put_text(buffer, 0, b"cannot open "),
        Failure::CannotRead => put_text(buffer, 0, b"cannot read "),
        Failure::TooLong => put_text(buffer, 0, b"too long, with the files before it: "),
        Failure::NoRoom { position, room } => put_no_room(buffer, position, room),
    }
}

// The line about a file that stands for something, at a path.
pub fn put_failure_line(buffer: &mut [u8], failure: Failure, file: &[u8], path: &[u8]) -> usize
    requires { 130 + length file.now + length path.now ≤ length buffer.old }
    ensures text_put { TextPut buffer.old 0 (failure_line failure file.now path.now) buffer.new result }
    ensures upper_bound { result ≤ 130 + length file.now + length path.now }
{
    let next = put_reason(buffer, failure);
    let next = put_text(buffer, next, file);
    let next = put_text(buffer, next, b" ");
    let next = put_text(buffer, next, path);
    put_text(buffer, next, b"\n")
}

// How a program for deliveries is called.
pub fn put_usage_line(buffer: &mut [u8]) -> usize
    requires { 64 ≤ length buffer.old }
    ensures text_put { TextPut buffer.old 0 usage_line buffer.new result }
    ensures upper_bound { result ≤ 64 }
{
    put_text(
        buffer,
        0,
        b"usage: delivery RECORDS NAMES REFERENCES REGISTRY STREAM\n",
    )
}
