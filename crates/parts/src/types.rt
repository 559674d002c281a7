// Why an attempt ends, how one runs, and the price of an item.

/// Why an attempt aborted.
#[derive(Clone, Copy, Debug, PartialEq, Eq)]
pub enum Cause {
    /// another head reached a line that this one had
    Conflict = 1,
    /// the board has no room for so much
    Capacity = 2,
    /// a software commit took the sequence lock
    Lock = 3,
    /// an interrupt
    Other = 4,
    /// validation found another word than the one that was read
    Changed = 5,
}

/// How an attempt runs: as a hardware transaction of the board, or in software.
#[derive(Clone, Copy, Debug, PartialEq, Eq)]
pub enum Mode {
    Hardware = 1,
    Software = 2,
}

/// The two prices of an item, in hundredths.
#[derive(Clone, Copy, Debug, PartialEq, Eq)]
pub struct Prices {
    pub retail: u32,
    pub wholesale: u32,
}

/// What an item costs.
#[derive(Clone, Copy, Debug, PartialEq, Eq)]
pub enum Rate {
    Unset,
    PerKilogram(Prices),
    PerPiece(Prices),
}
