// Flat schema blocks: records in level order, their depth, their names, the schema rules, and a block as a part of the record table.
#![tactic(auto)]

pub mod form;
pub mod names;
pub mod table;
pub mod validation;
