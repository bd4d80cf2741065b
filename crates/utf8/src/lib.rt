// Names as text: whether bytes are well-formed UTF-8, and whether they are ASCII alone, which is soon seen.
#![tactic(auto)]

pub mod ascii;
pub mod check;

pub use ascii::{is_ascii, short_ascii};
pub use check::is_utf8;
