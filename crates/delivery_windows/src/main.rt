// The program for deliveries in a small space: its tables leave a window of 24 bytes, so that the stream comes in several. A whole stream,
// one that is cut in a later window, whose place counts from the stream's start, and one that is not there, of which nothing goes to
// standard output.
#![tactic(auto)]

use deliveries::deliver_files;

fn main(rt: HostRuntime) {
    let mut space = [0u8; 128];
    deliver_files(&rt, &mut space, 1);
    deliver_files(&rt, &mut space, 6);
    deliver_files(&rt, &mut space, 11);
}
