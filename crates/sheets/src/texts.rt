// The text of a run sheet: a line for each call with its answer, and then the cells that are left, or the fault.
ghost use Rattle.std.specs.Prelude.{◌≡◌, ◌++◌, map, IfOk, OnOk, string_bytes};
ghost use Rattle.faults.specs.declared.texts.TheConstants.{NEWLINE};
ghost use Rattle.fields.specs.Parts.{ended};
ghost use Rattle.sheets.specs.Rows.{row_text, rows_of, cell_row_text, cell_rows_of};
ghost use Rattle.sheets.specs.Sheets.{end_lines};

use crate::types::{CellRow, Row};
use crate::written::Lines;
use entries::HeadCall;
use faults::{Report, RigFault};
use runs::Answer;
use std::alloc::{AllocError, Global};

// Adds each call with its answer.
fn push_rows(
    lines: &mut Lines,
    calls: &[HeadCall],
    answers: &[Answer<i32>],
) -> Result<(), AllocError>
    ensures { OnOk result (lines.new ≡ lines.old ++ ended NEWLINE (map row_text (rows_of calls.now answers.now))) }
{
    for (made, answer) in calls.iter().zip(answers) {
        lines.push_row(Row {
            made: *made,
            answer: *answer,
        })?;
    }
    Ok(())
}

// Adds each cell with its number.
fn push_cells(lines: &mut Lines, cells: &[i32]) -> Result<(), AllocError>
    ensures { OnOk result (lines.new ≡ lines.old ++ ended NEWLINE (map cell_row_text (cell_rows_of cells.now))) }
{
    for (cell, word) in cells.iter().enumerate() {
        lines.push_cell_row(CellRow { cell, word: *word })?;
    }
    Ok(())
}

// The text of a sheet. Where the scenario has a fault, its report stands in the place of the cells.
#[tactic(auto, using(crate::proofs::Adding::end_added))]
pub(crate) fn sheet_text(
    heap: Global,
    calls: &[HeadCall],
    answers: &[Answer<i32>],
    cells: &[i32],
    fault: Option<RigFault>,
) -> Result<String, AllocError>
    ensures { IfOk result (λ t. string_bytes t
        ≡ ended NEWLINE (map row_text (rows_of calls.now answers.now) ++ end_lines cells.now fault)) }
{
    // 16 bytes a line: few are longer
    let room = (calls.len() + cells.len()).saturating_mul(16);
    let mut lines = Lines::with_room(heap, room)?;
    push_rows(&mut lines, calls, answers)?;
    match fault {
        None => {
            push_cells(&mut lines, cells)?;
            Ok(lines.into_text())
        }
        Some(fault) => {
            let mut text = lines.into_text();
            writeln!(text, "{}", Report::from(fault))?;
            Ok(text)
        }
    }
}
