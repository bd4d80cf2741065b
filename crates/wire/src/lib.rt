// The leaves, a file for each topic: numbers in bytes (read, and written), the order of byte strings, and the wire types, by code and by name.
#![tactic(auto)]

pub mod codes;
pub mod names;
pub mod numbers;
pub mod order;
pub mod store;
pub mod types;

pub use codes::maximum_of;
pub use names::{is_name, parse};
pub use numbers::{field, u16_at, u32_at, u64_at, wide};
pub use order::{compare, is_equal, order_of};
pub use types::{code_of, fixed_width, from_code};
