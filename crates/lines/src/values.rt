// What the fields of a line say, read from the left.
ghost use Rattle.entries.specs.Rendering.{letter_of};
ghost use Rattle.lines.specs.Steps.{operand_parts, line_parts, line_word, FieldsRead, OperandsRead};

use crate::types::LineParts;
use crate::words::{named, policy_of};
use entries::{Entry, HeadCall, RigLine, Setting};
use faults::FieldFault;
use fields::Part;
use parts::Call;

// The call that the operands write.
fn call_of(parts: Call<Part, Part>) -> Result<Call<u32, i32>, FieldFault>
    ensures { OperandsRead (letter_of parts.entry) (operand_parts parts.entry) result }
{
    match parts {
        Call::Open => Ok(Call::Open),
        Call::Read(cell) => Ok(Call::Read(cell.number()?)),
        Call::Write(cell, amount) => Ok(Call::Write(cell.number()?, amount.amount()?)),
        Call::Close => Ok(Call::Close),
        Call::Push => Ok(Call::Push),
        Call::Jolt => Ok(Call::Jolt),
        Call::Again => Ok(Call::Again),
        Call::Drop => Ok(Call::Drop),
    }
}

// What a line says.
pub fn entry_of(line: LineParts) -> Result<Entry, FieldFault>
    ensures { FieldsRead (line_word line.entry) (line_parts line.entry) result }
{
    match line {
        LineParts::Rig {
            heads,
            cells,
            board,
            policy,
        } => Ok(Entry::Rig(RigLine {
            heads: heads.number()?,
            cells: cells.number()?,
            board: named(board)?,
            policy: policy_of(policy)?,
        })),
        LineParts::Set { cell, amount } => Ok(Entry::Set(Setting {
            cell: cell.number()?,
            amount: amount.amount()?,
        })),
        LineParts::Call { head, call } => Ok(Entry::Call(HeadCall {
            head: head.number()?,
            call: call_of(call)?,
        })),
    }
}
