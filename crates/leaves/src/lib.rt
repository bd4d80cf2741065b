// The smallest parts of a row: its allowance, the fields, and the nodes without children.
#![tactic(auto)]

pub mod budget;
pub mod fields;
pub mod leaf;
