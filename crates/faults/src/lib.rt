// What can be wrong with a scenario, layer by layer, where it is, and how it is printed.
#![tactic(auto)]

mod nesting;
mod reports;
mod texts;
mod types;

pub use texts::{LONGEST, NEWLINE, TAB};
pub use types::{FieldFault, Layer, LineFault, Place, Report, RigFault};
