// The words of the format, as parts of a text.
ghost use Rattle.lines.specs.Steps.{Found, PolicyRead};

use entries::{PolicyName, UnknownWord};
use faults::FieldFault;
use fields::Part;

// The word that the part is.
pub fn named<'a, W: TryFrom<&'a [u8], Error = UnknownWord>>(part: Part<'a>) -> Result<W, FieldFault>
    ensures { Found (W.try_from_gives part.entry.bytes) part.entry.place result }
{
    W::try_from(part.bytes).map_err(|_| FieldFault::UnknownWord(part.place))
}

// The policy of a rig line: a missing one is plain.
pub fn policy_of(part: Option<Part>) -> Result<PolicyName, FieldFault>
    ensures { PolicyRead part.entry result }
{
    part.map_or(Ok(PolicyName::Plain), named)
}
