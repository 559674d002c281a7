// A list of calls on one rig.
#![tactic(auto)]

mod calls;
mod runs;
mod types;

pub use calls::make;
pub use runs::{run, run_with};
pub use types::{Answer, Calls, Run, RunWith, SetUp};
