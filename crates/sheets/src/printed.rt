// What is printed of a text that is run.
ghost use Rattle.std.specs.Prelude.{◌≡◌, IfOk, IfErr, MatchResult, Err, string_bytes};
ghost use Rattle.scenario.specs.declared.types.ReadError.TheVariants as error;
ghost use Rattle.scenario.specs.Streams.{BeforeWriting, PrintOf, Printed};
ghost use Rattle.sheets.specs.Sheets.{end_at, SheetOf, SheetOnce};

use crate::rigs::sheet_of;
use faults::RigFault;
use scenario::{ReadError, Reading, StreamError, read, read_text, write_text};
use std::alloc::{AllocError, Global};
use std::io::{Read, Write};

// The fault at which a reading ended, if it ended at one; want of memory is no fault of the text.
fn fault_at(end: Result<(), ReadError>) -> Result<Option<RigFault>, AllocError>
    ensures fault { IfOk result (λ fault. end ≡ end_at fault) }
    ensures no_memory { IfErr result (λ e. end ≡ Err (error.NoMemory e)) }
{
    match end {
        Ok(()) => Ok(None),
        Err(ReadError::Fault(fault)) => Ok(Some(fault)),
        Err(ReadError::NoMemory(e)) => Err(e),
    }
}

/// The run sheet of a text: its calls up to the first fault, each with the answer that the rule book gives, and then the
/// cells that are left, or the fault.
pub fn run_sheet(heap: Global, text: &[u8]) -> Result<String, AllocError>
    ensures says { IfOk result (λ out. SheetOf text.now (string_bytes out)) }
    ensures once { SheetOnce }
{
    let Reading { scenario, end } = read(heap, text);
    let fault = fault_at(end)?;
    sheet_of(heap, &scenario, fault)
}

// The run sheet of the bytes that a reader has left.
fn sheet_read<R: Read + Drop>(heap: Global, input: R) -> Result<String, StreamError>
    ensures { MatchResult result (λ sheet. PrintOf SheetOf (R.remaining input) (string_bytes sheet)) BeforeWriting }
{
    let text = read_text(heap, input)?;
    let sheet = run_sheet(heap, &text)?;
    Ok(sheet)
}

/// Reads a text, and writes its run sheet: the whole of the program `runsheet` but for where it reads and writes. Nothing is
/// written before the text is read and run to its end.
pub fn print_run_sheet<R: Read + Drop, W: Write>(
    heap: Global,
    input: R,
    output: &mut W,
) -> Result<(), StreamError>
    ensures { Printed SheetOf result (R.remaining input) (W.contents output.old) (W.contents output.new) }
{
    let sheet = sheet_read(heap, input)?;
    write_text(output, sheet.as_str()).map_err(StreamError::NotWritten)
}
