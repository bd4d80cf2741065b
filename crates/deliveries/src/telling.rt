// What goes to the two outputs: each time one line, made in a buffer.
ghost use Rattle.std.specs.Prelude.{◌≤◌, ◌≡◌, length};

use crate::arguments::argument_bytes;
use failures::{Failure, put_failure_line, put_usage_line};
use lines::put_run_line;
use rules::Ran;

// Room for a line. The `ensures` gives only the length, which lending the array as a slice needs.
fn line_room() -> [u8; 8192]
    ensures { 8192 ≡ length result }
{
    [0; 8192]
}

// A failed write is not told: there is nowhere to tell it.
fn write_line(out: &impl Print, line: &[u8]) {
    let _ = out.write_all(line);
}

pub fn tell_run(rt: &HostRuntime, ran: Ran) {
    let mut line = line_room();
    let n = put_run_line(&mut line, ran);
    write_line(&rt.stdout(), &line[..n]);
}

pub fn tell_usage(rt: &HostRuntime) {
    let mut line = line_room();
    let n = put_usage_line(&mut line);
    write_line(&rt.stderr(), &line[..n]);
}

// Tells what is wrong with the file that an argument names.
pub fn tell_failure(rt: &HostRuntime, failure: Failure, file: &[u8], argument: usize)
    requires { length file.now ≤ 16 }
{
    let mut path = [0u8; 4096];
    let n = argument_bytes(rt, argument, &mut path);
    let mut line = line_room();
    let m = put_failure_line(&mut line, failure, file, &path[..n]);
    write_line(&rt.stderr(), &line[..m]);
}
