// The calls of a rig by handles: a transaction by what can be done with it. A handle holds a head and a transaction number,
// and no more. It is moved into the call that uses it up, and never copied, so it cannot be used out of turn; and
// a program that forgets one while its commit writes back is not proved.
#![tactic(auto)]

mod attempts;
mod commits;
mod refusals;
mod transaction;

pub use attempts::{Aborted, Begun, Closed, Running};
pub use commits::{Pushed, WritingBack};
pub use refusals::Refused;
