// The numbers and amounts that fields write.
ghost use Rattle.std.specs.Prelude.{◌≢◌, ◌-◌, ◌^◌, ◌<◌, ◌≤◌, negsuc, SomeIff, IsTrue};
ghost use Rattle.std.specs.Str.{all_ascii_digits};
ghost use Rattle.std.specs.Str.Parse.{digits_value};
ghost use Rattle.fields.specs.Numbers.{Number, Amount, Reads, FieldRead, Begins};
ghost use Rattle.faults.specs.declared.types.FieldFault.TheVariants.{BadNumber};

use crate::parts::Part;
use crate::types::Field;
use faults::FieldFault;

// The byte that an amount below 0 begins with.
const MINUS: u8 = b'-';

// How a field begins.
fn field_of(bytes: &[u8]) -> Field
    ensures { Begins result bytes.now }
{
    match bytes {
        [MINUS, digits @ ..] => Field::Minus(digits),
        _ => Field::Plain(bytes),
    }
}

// What the digits write, leading zeros or not; None if another byte is among them, or the value needs over 32 bits.
// A loop of its own: `parse`, which wants text, costs over twice as much for the one or two digits of most numbers.
#[tactic(auto, using(crate::proofs::Numerals::grown_by))]
fn digits_value(bytes: &[u8]) -> Option<u32>
    ensures { SomeIff result (IsTrue (all_ascii_digits bytes.now) × (digits_value 10 bytes.now < 2 ^ 32))
        (digits_value 10 bytes.now) }
{
    let mut value: u32 = 0;
    for byte in bytes {
        value = match byte {
            b'0'..=b'9' => u32::try_from(10 * u64::from(value) + u64::from(byte - b'0')).ok()?,
            _ => return None,
        };
    }
    Some(value)
}

// The number whose numeral the bytes are.
fn number_of(bytes: &[u8]) -> Option<u32>
    ensures { Reads (Number bytes.now) result }
{
    match bytes {
        // a numeral has a digit, and no leading zeros
        [] => None,
        [b'0', _, ..] => None,
        _ => digits_value(bytes),
    }
}

// -n, where that is below 0 and an amount.
fn negated(n: u32) -> Option<i32>
    ensures { SomeIff result ((n ≢ 0) × (n ≤ 2 ^ 31)) (negsuc (n - 1)) }
{
    match n {
        0 => None,
        n => i32::try_from(-i64::from(n)).ok(),
    }
}

// The amount whose numeral the bytes are.
fn amount_of(bytes: &[u8]) -> Option<i32>
    ensures { Reads (Amount bytes.now) result }
{
    match field_of(bytes) {
        Field::Minus(digits) => negated(number_of(digits)?),
        Field::Plain(digits) => i32::try_from(number_of(digits)?).ok(),
    }
}

impl Part<'_> {
    /// The number that the part writes (docs/RULES.md, "The scenario"), or a fault at its place.
    // Two names in place of one generic call: they tell a reader which kind of field is meant.
    pub fn number(self) -> Result<u32, FieldFault>
        ensures { FieldRead (Number self.entry.bytes.now) (BadNumber self.entry.place) result }
    {
        number_of(self.bytes).ok_or(FieldFault::BadNumber(self.place))
    }

    /// The amount that the part writes, or a fault at its place.
    pub fn amount(self) -> Result<i32, FieldFault>
        ensures { FieldRead (Amount self.entry.bytes.now) (BadNumber self.entry.place) result }
    {
        amount_of(self.bytes).ok_or(FieldFault::BadNumber(self.place))
    }
}
