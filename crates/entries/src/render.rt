// The text of what a line says. Each enum of words has a match of its own: the words are all that they differ in.
ghost use Rattle.std.specs.Prelude.{◌≡◌, Some};
ghost use Rattle.entries.specs.declared.types.Entry.TheVariants as entry;
ghost use Rattle.entries.specs.Rendering.{board_text, policy_text, letter_text, letter_of, line_text};

use crate::types::{BoardName, Entry, HeadCall, Letter, PolicyName, RigLine, Setting};
use parts::Call;
use std::fmt;

impl fmt::Display for BoardName {
    ghost output = { λ b. Some (board_text b) };

    fn fmt<W: fmt::Write>(&self, f: &mut fmt::Formatter<W>) -> fmt::Result {
        f.write_str(match self {
            BoardName::Stores => "stores",
            BoardName::Lines => "lines",
        })
    }
}

impl fmt::Display for PolicyName {
    ghost output = { λ p. Some (policy_text p) };

    fn fmt<W: fmt::Write>(&self, f: &mut fmt::Formatter<W>) -> fmt::Result {
        f.write_str(match self {
            PolicyName::Plain => "plain",
            PolicyName::Careful => "careful",
        })
    }
}

impl Letter {
    /// The letter as text (docs/RULES.md, "The scenario").
    pub fn as_str(self) -> &'static str
        ensures { result.now ≡ letter_text self }
    {
        match self {
            Letter::Open => "o",
            Letter::Read => "r",
            Letter::Write => "w",
            Letter::Close => "c",
            Letter::Push => "p",
            Letter::Jolt => "j",
            Letter::Again => "a",
            Letter::Drop => "d",
        }
    }
}

impl fmt::Display for Letter {
    ghost output = { λ l. Some (letter_text l) };

    fn fmt<W: fmt::Write>(&self, f: &mut fmt::Formatter<W>) -> fmt::Result {
        f.write_str(self.as_str())
    }
}

// The letter of a call, whatever it names.
impl From<Call<u32, i32>> for Letter {
    ghost from_gives = { λ call r. r ≡ letter_of call };

    fn from(call: Call<u32, i32>) -> Letter {
        match call {
            Call::Open => Letter::Open,
            Call::Read(_) => Letter::Read,
            Call::Write(..) => Letter::Write,
            Call::Close => Letter::Close,
            Call::Push => Letter::Push,
            Call::Jolt => Letter::Jolt,
            Call::Again => Letter::Again,
            Call::Drop => Letter::Drop,
        }
    }
}

impl fmt::Display for RigLine {
    ghost output = { λ r. Some (line_text (entry.Rig r)) };

    fn fmt<W: fmt::Write>(&self, f: &mut fmt::Formatter<W>) -> fmt::Result {
        let RigLine {
            heads,
            cells,
            board,
            policy,
        } = *self;
        write!(f, "rig\t{heads}\t{cells}\t{board}\t{policy}")
    }
}

impl fmt::Display for Setting {
    ghost output = { λ s. Some (line_text (entry.Set s)) };

    fn fmt<W: fmt::Write>(&self, f: &mut fmt::Formatter<W>) -> fmt::Result {
        let Setting { cell, amount } = *self;
        write!(f, "set\t{cell}\t{amount}")
    }
}

impl fmt::Display for HeadCall {
    ghost output = { λ k. Some (line_text (entry.Call k)) };

    fn fmt<W: fmt::Write>(&self, f: &mut fmt::Formatter<W>) -> fmt::Result {
        let HeadCall { head, call } = *self;
        let letter = Letter::from(call);
        match call {
            Call::Read(cell) => write!(f, "{letter}\t{head}\t{cell}"),
            Call::Write(cell, amount) => write!(f, "{letter}\t{head}\t{cell}\t{amount}"),
            _ => write!(f, "{letter}\t{head}"),
        }
    }
}

impl fmt::Display for Entry {
    ghost output = { λ e. Some (line_text e) };

    fn fmt<W: fmt::Write>(&self, f: &mut fmt::Formatter<W>) -> fmt::Result {
        match self {
            Entry::Rig(rig) => write!(f, "{rig}"),
            Entry::Set(setting) => write!(f, "{setting}"),
            Entry::Call(call) => write!(f, "{call}"),
        }
    }
}
