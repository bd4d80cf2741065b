// A value table, judged under a table's block: the walk that judges it, and the loop over a flat row.
#![tactic(auto)]

pub mod flat;
pub mod walk;
