// The records of the flat tables, a file for each: its size, its one reader, and its writer where it is written. Each has a size of its own, though
// most are 16 bytes: one may grow while the others stay.
#![tactic(auto)]

pub mod entry;
pub mod index_record;
pub mod node;
pub mod reference;
pub mod value_record;
