// Lists the delivery of the folder that it is run in: schema.rec, schema.nam and rows.skf, for one inline table.
#![tactic(auto)]

use listings::list_files;

fn main(rt: HostRuntime) {
    list_files(&rt, b"schema.rec", b"schema.nam", b"rows.skf");
}
