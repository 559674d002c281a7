// The rule book of the rig: its plain data, what each call answers and leaves, and the laws that hold of every run.
#![tactic(auto)]

mod limits;
mod numbers;
mod theorems;
mod types;

pub use limits::{MOST_ATTEMPTS, MOST_TRANSACTIONS, RECORDS, SLOTS};
pub use theorems::{bounds_stand, call_laws_stand, examples_stand, laws_stand};
pub use types::{
    Caller, Closing, Granted, Head, LentLists, Lists, MadeCall, Refusal, Slot, Snapshot, State,
    Table,
};
