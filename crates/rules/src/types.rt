// The plain data of the rig.
use crate::limits::RECORDS;
use parts::{Call, Cause, Mode};
use thiserror::Error;

/// What a head is doing.
#[derive(Clone, Copy, Debug, PartialEq, Eq)]
pub enum State {
    /// no transaction
    Idle,
    /// an attempt runs as a hardware transaction of the board
    Hardware,
    /// an attempt runs in software
    Software,
    /// the latest attempt has aborted; the transaction goes on
    Aborted(Cause),
    /// a software commit is putting its write log into the cells, slot by slot
    WritingBack,
}

/// The two shared numbers as a software attempt last found its reads valid.
#[derive(Clone, Copy, Debug, PartialEq, Eq)]
pub struct Snapshot {
    pub sequence: u32,
    pub commits: u32,
}

/// What the rig keeps of a head: plain numbers, each of which stands whatever the state.
/// Its logs stand in the slot lists, which the caller lends, and only their counts here.
#[derive(Clone, Copy, Debug, PartialEq, Eq)]
pub struct Head {
    pub state: State,
    /// the number of its latest transaction
    pub transaction: u32,
    /// how often that transaction has been tried
    pub attempts: u32,
    /// how many of the attempts aborted in hardware
    pub hardware_aborts: u32,
    /// stores of the hardware attempt
    pub stores: u16,
    /// slots of the read log
    pub read_count: u8,
    /// slots of the write log
    pub write_count: u8,
    /// slots written back
    pub written: u8,
    pub snapshot: Snapshot,
}

/// A slot of a log: a cell and a word.
#[derive(Clone, Copy, Debug, PartialEq, Eq)]
pub struct Slot<W> {
    pub cell: u32,
    pub word: W,
}

/// All that a rig keeps beside its board and its policy: plain data that can be copied, in fixed memory.
#[derive(Clone, Copy, Debug, PartialEq, Eq)]
pub struct Table {
    /// the first `head_count` are in use
    pub heads: [Head; RECORDS],
    pub head_count: u32,
    pub cell_count: u32,
    /// the sequence lock: odd while a software commit writes back
    pub sequence: u32,
    /// the commit counter: hardware commits so far
    pub commits: u32,
    /// transactions opened so far
    pub opened: u32,
}

/// Who calls: a head by its number, or the handle of one of its transactions.
#[derive(Clone, Copy, Debug, PartialEq, Eq)]
pub struct Caller {
    pub head: u32,
    /// the transaction number that the handle holds
    pub transaction: Option<u32>,
}

/// A granted close, with the attempts of the transaction: done, or its writes are still to be pushed.
/// Not a `Result`: neither case is a failure.
#[derive(Clone, Copy, Debug, PartialEq, Eq)]
pub enum Closing {
    Complete(u32),
    WritingBack(u32),
}

/// What a granted call gives.
#[derive(Clone, Copy, Debug, PartialEq, Eq)]
pub enum Granted<W> {
    /// how the attempt runs that open or again began
    Begun(Mode),
    /// the word that was read
    Word(W),
    /// nothing: write and drop
    Done,
    Closed(Closing),
    /// the slots that are left to push
    SlotsLeft(u8),
}

/// Why a call is not granted.
#[derive(Clone, Copy, Debug, PartialEq, Eq, Error)]
pub enum Refusal {
    #[error("a list is not as long as the cells, or as the slots of all heads")]
    Lists,
    #[error("the rig has no such head")]
    NoHead,
    #[error("the rig has no such cell")]
    NoCell,
    #[error("the head's state does not take the call")]
    NotTaken,
    /// the head has aborted already, or aborts in this call
    #[error("the attempt has aborted, by {0:?}")]
    Aborted(Cause),
    #[error("a software commit is writing back")]
    Busy,
    #[error("a new slot is needed, and the log has them all")]
    Full,
    #[error("the rig opens no more transactions")]
    OutOfTransactions,
    #[error("the transaction is tried no more")]
    OutOfAttempts,
    /// such a rig is not set up
    #[error("no rig has so few or so many heads or cells")]
    OutOfRange,
    #[error("the handle's transaction is not its head's")]
    StaleHandle,
}

/// The three lists that are lent for a call which changes none of them. A call that changes one takes the three apart.
#[derive(Clone, Copy, Debug, PartialEq, Eq)]
pub struct Lists<'a, W> {
    pub cells: &'a [W],
    pub reads: &'a [Slot<W>],
    pub writes: &'a [Slot<W>],
}

/// The lists that a call gets: as the last call with right lengths left them, or one of them of wrong length.
#[derive(Clone, Copy, Debug, PartialEq, Eq)]
pub enum LentLists {
    Right,
    Wrong,
}

/// A call as it is made: who makes it, with which lists.
#[derive(Clone, Copy, Debug, PartialEq, Eq)]
pub struct MadeCall<W> {
    pub lent: LentLists,
    pub caller: Caller,
    pub call: Call<u32, W>,
}
