// A text as lines and fields, each with the place where it begins, and the numbers and amounts that fields write.
#![tactic(auto)]

mod numbers;
mod parts;
mod reader;
mod types;

pub use faults::{NEWLINE, TAB};
pub use parts::{Fields, Line, Part, Reader};
