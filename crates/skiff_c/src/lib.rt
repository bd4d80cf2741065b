// The C functions of the archive libskiff.a: each hands its arguments to the function of its name in skiff, and promises what that one
// promises. A crate of its own, since a library that other crates stand on is no archive.
#![tactic(auto)]

pub mod checking;
pub mod indexing;
pub mod printing;
pub mod querying;
pub mod reading;
pub mod viewing;
pub mod window;
pub mod writing;
