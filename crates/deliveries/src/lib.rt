// What the programs for deliveries share: the four tables and the stream are the files that five arguments name. One line goes to
// standard output: the rows and bytes that were accepted, and the refusal that ended the run, if one did. What is wrong with a file
// goes to standard error.
#![tactic(auto)]

mod arguments;
mod reading;
mod telling;

ghost use Rattle.std.specs.Prelude.{ℕ, ◌≤◌, ◌≡◌, length, take, Some};
ghost use Rattle.windows.specs.Bounds.{Laid};

use arguments::{argument_bytes, is_given};
use failures::Failure;
use reading::{read_one_more, run_stream};
use reads::filling::read_full;
use reads::{RunFailure, TableFailure, table_read};
use rules::Settings;
use std::fs::File;
use std::str::from_utf8;
use telling::{tell_failure, tell_run, tell_usage};
use windows::space::Ends;

// Opens a file for reading. The library opens files only by paths that are UTF-8 text.
fn open_read(rt: &HostRuntime, path: &[u8]) -> Option<File> {
    let text = from_utf8(path).ok()?;
    File::open(rt, text).ok()
}

// Opens the file that an argument names. Where that fails it tells so, and answers none.
fn open_file(rt: &HostRuntime, argument: usize, file: &[u8]) -> Option<File>
    requires { length file.now ≤ 16 }
{
    let mut path = [0u8; 4096];
    let n = argument_bytes(rt, argument, &mut path);
    let opened = open_read(rt, &path[..n]);
    if opened.is_none() {
        tell_failure(rt, Failure::CannotOpen, file, argument);
    }
    opened
}

// Reads the file that an argument names into the space, from a position on, and answers where its bytes end: before the space's end, so
// that there is room for the stream. Where that fails it tells so, and answers none.
fn read_table(
    rt: &HostRuntime,
    argument: usize,
    file: &[u8],
    space: &mut [u8],
    from: usize,
) -> Option<usize>
    requires { (length file.now ≤ 16) × (from ≤ length space.old) }
    ensures bounds { (end : ℕ) → result ≡ Some end → (from ≤ end) × (end ≤ length space.new) }
    ensures space_unchanged { take from space.new ≡ take from space.old }
{
    let mut opened = open_file(rt, argument, file)?;
    let end = from + read_full(&mut opened, &mut space[from..]);
    let last = read_one_more(&mut opened);
    let read = table_read(end, space.len(), last);
    match read {
        Ok(()) => Some(end),
        Err(TableFailure::TooLong) => {
            tell_failure(rt, Failure::TooLong, file, argument);
            None
        }
        Err(TableFailure::Unreadable) => {
            tell_failure(rt, Failure::CannotRead, file, argument);
            None
        }
    }
}

// Reads the tables that four arguments name, the first of them by its number. They lie one behind the other in the space, so that only
// their sum is limited.
fn read_tables(rt: &HostRuntime, argument: usize, space: &mut [u8]) -> Option<Ends>
    requires { argument ≤ 65535 }
    ensures { (ends : Ends) → result ≡ Some ends → Laid ends ends.registry (length space.new) }
{
    let records = read_table(rt, argument, b"RECORDS", space, 0)?;
    let names = read_table(rt, argument + 1, b"NAMES", space, records)?;
    let references = read_table(rt, argument + 2, b"REFERENCES", space, names)?;
    let registry = read_table(rt, argument + 3, b"REGISTRY", space, references)?;
    Some(Ends {
        records,
        names,
        references,
        registry,
    })
}

// Runs over the stream that an argument names, in the window that the tables leave, and tells how it came out.
fn deliver_stream(rt: &HostRuntime, argument: usize, space: &mut [u8], ends: Ends)
    requires { Laid ends ends.registry (length space.old) }
{
    let Some(mut stream) = open_file(rt, argument, b"STREAM") else {
        return;
    };
    let told = run_stream(Settings::new(), &mut stream, space, ends);
    match told {
        Ok(ran) => tell_run(rt, ran),
        Err(RunFailure::NoRoom(position)) => {
            let room = (space.len() - ends.registry) as u64;
            tell_failure(rt, Failure::NoRoom { position, room }, b"STREAM", argument);
        }
        Err(RunFailure::Unreadable) => tell_failure(rt, Failure::CannotRead, b"STREAM", argument),
    }
}

// Runs over the delivery that five arguments name, the first of them by its number. What the tables leave of the space is the window.
pub fn deliver_files(rt: &HostRuntime, space: &mut [u8], first: u16) {
    let argument = first as usize;
    let Some(ends) = read_tables(rt, argument, space) else {
        return;
    };
    deliver_stream(rt, argument + 4, space, ends);
}

// The program: the delivery of its five arguments.
pub fn deliver(rt: &HostRuntime, space: &mut [u8]) {
    if !is_given(rt, 5) || is_given(rt, 6) {
        tell_usage(rt);
        return;
    }
    deliver_files(rt, space, 1);
}
