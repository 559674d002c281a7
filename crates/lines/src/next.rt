// Reading the next line.
ghost use Rattle.std.specs.Prelude.{◌≡◌, Decides};
ghost use Rattle.fields.specs.Parts.{line_piece};
ghost use Rattle.lines.specs.Faults.{Placed, stage_after, LineRead, NextRead, LineOnce};
ghost use Rattle.lines.specs.Steps.{LedBy, LineShaped};

use crate::shapes::shape;
use crate::types::{LineEntry, LineParts, Stage};
use crate::values::entry_of;
use entries::{Entry, Word};
use faults::LineFault;
use fields::{Fields, Line, Reader};

impl Stage {
    // Whether a line that begins with the word may stand here.
    fn takes(self, w: Word) -> bool
        ensures { Decides result (Placed self w) }
    {
        matches!(
            (self, w),
            (Stage::Start, Word::Rig)
                | (Stage::Settings(_), Word::Set | Word::Call(_))
                | (Stage::Calls, Word::Call(_))
        )
    }

    /// Where the line after this entry stands.
    pub fn after(self, said: Entry) -> Stage
        ensures { result ≡ stage_after self said }
    {
        match said {
            Entry::Rig(rig) => Stage::Settings(rig.cells),
            Entry::Set(_) => self,
            Entry::Call(_) => Stage::Calls,
        }
    }
}

// The word that a line begins with, taken off its fields.
fn leading_word(fields: &mut Fields) -> Option<Word>
    ensures { LedBy fields.old fields.new result }
{
    Word::try_from(fields.next()?.bytes).ok()
}

// The line, with its word in its place and its fields counted.
fn line_of<'a>(stage: Stage, line: Line<'a>) -> Result<LineParts<'a>, LineFault>
    ensures { LineShaped stage (line_piece line.entry) result }
{
    let place = line.part.place;
    let mut fields = line.fields();
    let word = leading_word(&mut fields).ok_or(LineFault::UnknownWord(place))?;
    if !stage.takes(word) {
        return Err(LineFault::Misplaced(place));
    }
    shape(word, fields).ok_or(LineFault::Miscounted(place))
}

// What the line says.
fn line_entry(stage: Stage, line: Line) -> Result<Entry, LineFault>
    ensures { LineRead stage (line_piece line.entry) result }
{
    let parts = line_of(stage, line)?;
    let said = entry_of(parts)?;
    Ok(said)
}

/// What the next line says, after lines that led to this stage; None where no line is left. A line is refused with the
/// first of the faults of docs/RULES.md, "Faults", in the order given there.
pub fn next_entry(stage: Stage, reader: &mut Reader) -> Option<LineEntry>
    ensures next { NextRead stage reader.old reader.new result }
    ensures once { LineOnce }
{
    let line = reader.next()?;
    Some(LineEntry {
        place: line.part.place,
        said: line_entry(stage, line),
    })
}
