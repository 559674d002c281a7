// What the lines of a scenario say.
use parts::Call;
use thiserror::Error;

/// The board that a scenario runs on.
#[derive(Clone, Copy, Debug, PartialEq, Eq)]
pub enum BoardName {
    Stores,
    Lines,
}

/// The retry policy that a scenario runs under.
#[derive(Clone, Copy, Debug, PartialEq, Eq)]
pub enum PolicyName {
    Plain,
    Careful,
}

/// The rig that a scenario runs on.
#[derive(Clone, Copy, Debug, PartialEq, Eq)]
pub struct RigLine {
    pub heads: u32,
    pub cells: u32,
    pub board: BoardName,
    pub policy: PolicyName,
}

/// A cell's amount before the first call. Not a slot of a log, which holds a word of any kind.
#[derive(Clone, Copy, Debug, PartialEq, Eq)]
pub struct Setting {
    pub cell: u32,
    pub amount: i32,
}

/// A call with the number of the head that makes it: a read has its cell, a write its cell and amount.
#[derive(Clone, Copy, Debug, PartialEq, Eq)]
pub struct HeadCall {
    pub head: u32,
    pub call: Call<u32, i32>,
}

/// What a line says.
#[derive(Clone, Copy, Debug, PartialEq, Eq)]
pub enum Entry {
    Rig(RigLine),
    Set(Setting),
    Call(HeadCall),
}

/// The letter of a call. Not a call whose operands are `()`: `Read(())` says less than `Read`.
#[derive(Clone, Copy, Debug, PartialEq, Eq)]
pub enum Letter {
    Open,
    Read,
    Write,
    Close,
    Push,
    Jolt,
    Again,
    Drop,
}

/// The word that a line begins with.
#[derive(Clone, Copy, Debug, PartialEq, Eq)]
pub enum Word {
    Rig,
    Set,
    Call(Letter),
}

/// Bytes that are none of the words asked for.
#[derive(Clone, Copy, Debug, PartialEq, Eq, Error)]
#[error("none of the words asked for")]
pub struct UnknownWord;
