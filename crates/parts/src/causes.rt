// The numbers of causes and of modes, as a run sheet shows them.
// Two methods of one line, and no `From` to a number: a number alone does not say what it numbers.
ghost use Rattle.std.specs.Prelude.{◌≡◌};
ghost use Rattle.parts.specs.Causes.{cause_number, mode_number};

use crate::types::{Cause, Mode};

impl Cause {
    pub fn number(self) -> u8
        ensures { result ≡ cause_number self }
    {
        self as u8
    }
}

impl Mode {
    pub fn number(self) -> u8
        ensures { result ≡ mode_number self }
    {
        self as u8
    }
}
