// The fields of a line, as many as its word wants.
ghost use Rattle.lines.specs.Steps.{Shaped, ShapedCall};

use crate::types::LineParts;
use entries::{Letter, Word};
use fields::{Fields, Part};
use parts::Call;

// A call with the operands that its letter wants; None where there are too few.
fn call_parts<'a>(letter: Letter, fields: &mut Fields<'a>) -> Option<Call<Part<'a>, Part<'a>>>
    ensures { ShapedCall letter fields.old fields.new result }
{
    match letter {
        Letter::Open => Some(Call::Open),
        Letter::Read => Some(Call::Read(fields.next()?)),
        Letter::Write => Some(Call::Write(fields.next()?, fields.next()?)),
        Letter::Close => Some(Call::Close),
        Letter::Push => Some(Call::Push),
        Letter::Jolt => Some(Call::Jolt),
        Letter::Again => Some(Call::Again),
        Letter::Drop => Some(Call::Drop),
    }
}

// The line that the fields after a word make; None where there are too few or too many.
pub fn shape<'a>(word: Word, mut fields: Fields<'a>) -> Option<LineParts<'a>>
    ensures { Shaped word fields.entry result }
{
    let line = match word {
        Word::Rig => LineParts::Rig {
            heads: fields.next()?,
            cells: fields.next()?,
            board: fields.next()?,
            policy: fields.next(),
        },
        Word::Set => LineParts::Set {
            cell: fields.next()?,
            amount: fields.next()?,
        },
        Word::Call(letter) => LineParts::Call {
            head: fields.next()?,
            call: call_parts(letter, &mut fields)?,
        },
    };
    // `then_some` was tried here: its proof did not close
    if fields.next().is_some() {
        return None;
    }
    Some(line)
}
