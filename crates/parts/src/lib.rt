// What a rig is built from: words, boards and retry policies, each as a trait with its meaning; its eight calls; and its size.
#![tactic(auto)]

mod boards;
mod calls;
mod causes;
mod policies;
mod sizes;
mod types;
mod words;

pub use boards::{Board, LinesBoard, Margin, StoresBoard};
pub use calls::Call;
pub use policies::{CAREFUL_PATIENCE, Careful, PLAIN_PATIENCE, Plain, Policy};
pub use sizes::{MOST_CELLS, MOST_HEADS, Size};
pub use types::{Cause, Mode, Prices, Rate};
pub use words::Word;
