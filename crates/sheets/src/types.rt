// The lines of a run sheet.
use entries::HeadCall;
use runs::Answer;

/// The line of a call: the call as its head makes it, and what it is answered.
#[derive(Clone, Copy, Debug, PartialEq, Eq)]
pub struct Row {
    pub made: HeadCall,
    pub answer: Answer<i32>,
}

/// The line of a cell: its number, and the word that it is left with.
#[derive(Clone, Copy, Debug, PartialEq, Eq)]
pub struct CellRow {
    pub cell: usize,
    pub word: i32,
}
