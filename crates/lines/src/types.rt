// Lines on the way from text to what they say.
use entries::Entry;
use faults::{LineFault, Place};
use fields::Part;
use parts::Call;

/// What stood on the lines before: nothing; the rig, of so many cells, and settings; calls too.
#[derive(Clone, Copy, Debug, PartialEq, Eq)]
pub enum Stage {
    Start,
    Settings(u32),
    Calls,
}

// A line by its word, with as many fields as the word wants, each a part of the text.
// Not one generic type with `Entry`: that would want four parameters, for numbers, amounts, boards and policies.
#[derive(Clone, Copy)]
pub enum LineParts<'a> {
    Rig {
        heads: Part<'a>,
        cells: Part<'a>,
        board: Part<'a>,
        policy: Option<Part<'a>>,
    },
    Set {
        cell: Part<'a>,
        amount: Part<'a>,
    },
    Call {
        head: Part<'a>,
        call: Call<Part<'a>, Part<'a>>,
    },
}

/// What a line was read as, and where it begins.
#[derive(Clone, Copy, Debug, PartialEq, Eq)]
pub struct LineEntry {
    pub place: Place,
    pub said: Result<Entry, LineFault>,
}
