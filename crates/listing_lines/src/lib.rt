// The lines of a listing: those of a row, from its value table, and the listing of three files, piece by piece.
#![tactic(auto)]

pub mod pieces;
pub mod rows;
