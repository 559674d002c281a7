// Faults, from the field to the rig, and where they are.
use crate::texts::LONGEST;
use thiserror::Error;

/// Where a part of the text begins: its line, counted from 1, and its byte, counted from 0 over the whole text.
#[derive(Clone, Copy, Debug, PartialEq, Eq)]
pub struct Place {
    pub line: usize,
    pub byte: usize,
}

/// What is wrong with a field after the first of its line, and where the field begins (docs/RULES.md, "Faults").
#[derive(Clone, Copy, Debug, PartialEq, Eq, Error)]
pub enum FieldFault {
    #[error("{0}: the field is no board and no policy")]
    UnknownWord(Place),
    #[error("{0}: the field is no number in range")]
    BadNumber(Place),
}

/// What is wrong with a line: a field after the first, or the line itself, and where that begins.
/// A text that is too long has no lines; its fault is reported with those of lines.
#[derive(Clone, Copy, Debug, PartialEq, Eq, Error)]
pub enum LineFault {
    #[error(transparent)]
    Field(FieldFault),
    #[error("{0}: the line begins with no word of the format")]
    UnknownWord(Place),
    #[error("{0}: such a line may not stand here")]
    Misplaced(Place),
    #[error("{0}: the line has too few or too many fields")]
    Miscounted(Place),
    #[error("the text has more than {} bytes", LONGEST)]
    TooLong,
}

/// What is wrong with a scenario: a line, or what a line asks of the rig, and where that line begins.
#[derive(Clone, Copy, Debug, PartialEq, Eq, Error)]
pub enum RigFault {
    #[error(transparent)]
    Line(LineFault),
    #[error("{0}: the rig has no such cell to set")]
    NoSuchCell(Place),
    #[error("{0}: no rig has so few or so many heads or cells")]
    BadRig(Place),
}

/// The layer of the reader that found a fault: a field after the first, a line, or the rig.
#[derive(Clone, Copy, Debug, PartialEq, Eq)]
pub enum Layer {
    Field,
    Line,
    Rig,
}

/// A fault as it is printed: its number (docs/RULES.md, "Faults") stands for the kind, which the enums above tell.
#[derive(Clone, Copy, Debug, PartialEq, Eq)]
pub struct Report {
    pub number: u8,
    pub place: Place,
    pub layer: Layer,
}
