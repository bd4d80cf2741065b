// The C functions. Each takes the numbers and slices that C can give, one by one, and answers numbers. An answer goes to a slice that is kept for answers, in one layout for all of them: include/skiff.h.
#![tactic(auto)]

pub mod checking;
pub mod indexing;
pub mod printing;
pub mod querying;
pub mod reading;
pub mod viewing;
pub mod window;
pub mod writing;

// The bytes of an answer.
pub const ANSWER: usize = 88;
