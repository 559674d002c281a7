// The rig: eight calls on a table, a board and a policy, over three lists that the caller lends.
#![tactic(auto)]

mod admission;
mod closing;
mod heads;
mod noting;
mod reading;
mod rig;
mod simple;
mod sweeps;
mod validation;
mod write_back;
mod writing;

pub use rig::Rig;
