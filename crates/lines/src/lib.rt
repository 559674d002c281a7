// The lines of a scenario: what each says, or what is wrong with it.
#![tactic(auto)]

mod next;
mod shapes;
mod types;
mod values;
mod words;

pub use next::next_entry;
pub use types::{LineEntry, Stage};
