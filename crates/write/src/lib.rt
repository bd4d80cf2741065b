// The writing side of the wire: a value table that was judged is given room and written as a row.
#![tactic(auto)]

pub mod put;
pub mod steps;
