// The logs of a head, for every kind of word: looked into, added to, validated, and put into the cells.
#![tactic(auto)]

mod growing;
mod lines;
mod log;
mod validation;

pub use growing::LogMut;
pub use lines::{lines_touched, lines_touched_with};
pub use log::Log;
pub use validation::{Validation, validate};
