// The run sheet of a scenario: each call with its answer, and then the cells that are left.
#![tactic(auto)]

mod line;
mod printed;
mod rigs;
mod rows;
mod starts;
mod texts;
mod types;
mod written;

pub use printed::{print_run_sheet, run_sheet};
pub use types::{CellRow, Row};
