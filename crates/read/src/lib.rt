// The walk that judges a row. It looks at each byte once, counts what a value table would hold, and builds nothing.
#![tactic(auto)]

pub mod walk;
