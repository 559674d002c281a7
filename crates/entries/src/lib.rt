// What the lines of a scenario say, the text of each, and the words in it.
#![tactic(auto)]

mod render;
mod types;
mod words;

pub use types::{
    BoardName, Entry, HeadCall, Letter, PolicyName, RigLine, Setting, UnknownWord, Word,
};
