// Runs over a delivery: the four tables and the stream are the files that five arguments name. The space for the tables and a window
// of the stream is half of the 8 MiB that a process usually has for its stack.
#![tactic(auto)]

use deliveries::deliver;

fn main(rt: HostRuntime) {
    let mut space = [0u8; 4194304];
    deliver(&rt, &mut space);
}
