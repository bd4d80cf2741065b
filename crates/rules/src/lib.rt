// The types that all crates share, a file for each topic: wire types, a format, records of the flat tables, settings, refusals,
// answers, what a host is told of a value record.
// What is right is written down in specs/, as definitions that read beside documents 01 and 02.
#![tactic(auto)]

pub mod answer;
pub mod format;
pub mod host_answer;
pub mod refusal;
pub mod settings;
pub mod table_record;
pub mod wire_type;

pub use answer::{Door, Extent, Purpose, Ran, RowSpan};
pub use format::Format;
pub use host_answer::Scalar;
pub use refusal::{Label, Labels, Refusal, RefusalLine, Report, Why};
pub use settings::{LONGEST, Settings, limit_of_type, room_in};
pub use table_record::{Entry, Located, Node, Reference, ValueRecord};
pub use wire_type::{Children, WireType};
