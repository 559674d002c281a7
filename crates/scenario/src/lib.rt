// A whole scenario: what its text says, line by line, up to the first fault.
#![tactic(auto)]

mod errors;
mod printed;
mod render;
mod streams;
mod texts;
mod types;

pub use printed::readback;
pub use streams::{StreamError, print_readback, read_text, write_text};
pub use texts::{LONGEST, check, read};
pub use types::{ReadError, Reading, Scenario};
