// The lines of a run sheet as they are printed.
ghost use Rattle.std.specs.Prelude.{◌≡◌, ◌≤◌, ◌∷◌, [], ◌++◌, ◌<◌, Some, OnOk, IfSome, pos, length};
ghost use Rattle.std.specs.Fmt.{decimal};
ghost use Rattle.std.specs.Str.{IsAscii};
ghost use Rattle.entries.specs.Rendering.{letter_text};
ghost use Rattle.faults.specs.declared.texts.TheConstants.{NEWLINE};
ghost use Rattle.fields.specs.Parts.{ended};
ghost use Rattle.rules.specs.Answers.{granted_value, answer_number, answer_value};
ghost use Rattle.sheets.specs.Rows.{value_text, row_text, cell_row_text};

use crate::line::Line;
use crate::types::{CellRow, Row};
use crate::written::Lines;
use entries::{HeadCall, Letter};
use fields::{NEWLINE, TAB};
use rules::{Closing, Granted, Refusal};
use runs::Answer;
use std::alloc::AllocError;
use std::fmt;

// The number that an answer returns.
fn answer_number(answer: Answer<i32>) -> u8
    ensures { result ≡ answer_number answer }
{
    match answer {
        Ok(granted) => granted.number(),
        Err(refusal) => refusal.number(),
    }
}

// What a granted call gives, as a signed number: 64 bits hold every word and every count.
fn granted_value(granted: Granted<i32>) -> Option<i64>
    ensures { result ≡ granted_value (λ w. w) pos granted }
{
    match granted {
        Granted::Begun(mode) => Some(i64::from(mode.number())),
        Granted::Word(word) => Some(i64::from(word)),
        Granted::Done => None,
        Granted::Closed(Closing::Complete(attempts) | Closing::WritingBack(attempts)) => {
            Some(i64::from(attempts))
        }
        Granted::SlotsLeft(slots) => Some(i64::from(slots)),
    }
}

// The value of an answer, if it has one.
fn answer_value(answer: Answer<i32>) -> Option<i64>
    ensures { result ≡ answer_value (λ w. w) pos answer }
{
    match answer {
        Ok(granted) => granted_value(granted),
        Err(Refusal::Aborted(cause)) => Some(i64::from(cause.number())),
        Err(_) => None,
    }
}

// Writes a row before what is in the line, which is a newline at most.
fn put_row(line: &mut Line, row: Row)
    requires { length line.old ≤ 1 }
    ensures { line.new ≡ row_text row ++ line.old }
{
    let Row {
        made: HeadCall { head, call },
        answer,
    } = row;
    match answer_value(answer) {
        Some(value) => line.put_signed(value),
        None => line.put("-"),
    }
    line.put("\t");
    line.put_number(u64::from(answer_number(answer)));
    line.put("\t");
    line.put_number(u64::from(head));
    line.put("\t");
    line.put(Letter::from(call).as_str());
}

// Writes a cell before what is in the line, likewise.
fn put_cell_row(line: &mut Line, row: CellRow)
    requires { length line.old ≤ 1 }
    ensures { line.new ≡ cell_row_text row ++ line.old }
{
    let CellRow { cell, word } = row;
    line.put_signed(i64::from(word));
    line.put("\t");
    line.put_number(cell as u64);
    line.put("cell\t");
}

impl fmt::Display for Row {
    ghost output = { λ r. Some (row_text r) };

    fn fmt<W: fmt::Write>(&self, f: &mut fmt::Formatter<W>) -> fmt::Result {
        let mut line = Line::new();
        put_row(&mut line, *self);
        f.write_str(line.as_str())
    }
}

impl fmt::Display for CellRow {
    ghost output = { λ r. Some (cell_row_text r) };

    fn fmt<W: fmt::Write>(&self, f: &mut fmt::Formatter<W>) -> fmt::Result {
        let mut line = Line::new();
        put_cell_row(&mut line, *self);
        f.write_str(line.as_str())
    }
}

// The byte of a letter.
fn letter_byte(letter: Letter) -> u8
    ensures text { letter_text letter ≡ result ∷ [] }
    ensures ascii { result < 128 }
{
    letter.as_str().as_bytes()[0]
}

// The byte of a number that has one digit.
#[tactic(auto, using(std::proofs::lemmas::Fmt::decimal_digit))]
fn number_byte(number: u64) -> Option<u8>
    ensures text { IfSome result (λ byte. decimal number ≡ byte ∷ []) }
    ensures ascii { IfSome result (λ byte. byte < 128) }
{
    if number < 10 {
        Some(b'0' + number as u8)
    } else {
        None
    }
}

// The byte of a value that has one digit and no sign, or of one that is not there.
fn value_byte(value: Option<i64>) -> Option<u8>
    ensures text { IfSome result (λ byte. value_text value ≡ byte ∷ []) }
    ensures ascii { IfSome result (λ byte. byte < 128) }
{
    match value {
        None => Some(b'-'),
        Some(value) if value >= 0 => number_byte(value.unsigned_abs()),
        Some(_) => None,
    }
}

// The whole line of a call, if each number in it is one byte, as in most lines: these bytes are put together in
// registers, which is much quicker than to write the parts one by one and then copy them.
fn short_line(row: Row) -> Option<[u8; 8]>
    ensures text { IfSome result (λ line. line ≡ ended NEWLINE (row_text row ∷ [])) }
    ensures ascii { IfSome result (λ line. IsAscii line) }
{
    let Row {
        made: HeadCall { head, call },
        answer,
    } = row;
    let letter = letter_byte(Letter::from(call));
    let head = number_byte(u64::from(head))?;
    let number = number_byte(u64::from(answer_number(answer)))?;
    let value = value_byte(answer_value(answer))?;
    Some([letter, TAB, head, TAB, number, TAB, value, NEWLINE])
}

impl Lines {
    // Adds the line of a call.
    pub(crate) fn push_row(&mut self, row: Row) -> Result<(), AllocError>
        ensures { OnOk result (self.new ≡ self.old ++ ended NEWLINE (row_text row ∷ [])) }
    {
        match short_line(row) {
            Some(line) => self.push_short(&line),
            None => {
                let mut line = Line::new();
                line.put("\n");
                put_row(&mut line, row);
                self.push(&line)
            }
        }
    }

    // Adds the line of a cell.
    pub(crate) fn push_cell_row(&mut self, row: CellRow) -> Result<(), AllocError>
        ensures { OnOk result (self.new ≡ self.old ++ ended NEWLINE (cell_row_text row ∷ [])) }
    {
        let mut line = Line::new();
        line.put("\n");
        put_cell_row(&mut line, row);
        self.push(&line)
    }
}
