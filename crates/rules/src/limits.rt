// The limits of a rig. What it may have of heads and cells is said where a rig's size is (parts, Size).
use parts::MOST_HEADS;

/// The records of heads in a table, whatever the number of its heads.
pub const RECORDS: usize = MOST_HEADS as usize;

/// The slots that a head owns of each slot list, and the most that its log has.
pub const SLOTS: usize = 32;

/// The most transactions that a rig opens.
pub const MOST_TRANSACTIONS: u32 = 60_000;

/// The most attempts of a transaction.
pub const MOST_ATTEMPTS: u32 = 70_000;
