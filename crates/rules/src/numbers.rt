// The number that each answer returns. `as` takes no enum whose cases hold something, and a number says less than
// the answer, so these are no conversions.
ghost use Rattle.std.specs.Prelude.{◌≡◌};
ghost use Rattle.rules.specs.Answers.{refusal_number, granted_number};

use crate::types::{Closing, Granted, Refusal};

impl Refusal {
    pub fn number(self) -> u8
        ensures { result ≡ refusal_number self }
    {
        match self {
            Refusal::Lists => 2,
            Refusal::NoHead => 3,
            Refusal::NoCell => 4,
            Refusal::NotTaken => 5,
            Refusal::Aborted(_) => 6,
            Refusal::Busy => 7,
            Refusal::Full => 8,
            Refusal::OutOfTransactions => 9,
            Refusal::OutOfAttempts => 10,
            Refusal::OutOfRange => 11,
            Refusal::StaleHandle => 12,
        }
    }
}

impl<W> Granted<W> {
    pub fn number(&self) -> u8
        ensures { result ≡ granted_number self.now }
    {
        match self {
            Granted::Begun(_) | Granted::Word(_) | Granted::Done | Granted::SlotsLeft(_) => 0,
            Granted::Closed(Closing::Complete(_)) => 0,
            Granted::Closed(Closing::WritingBack(_)) => 1,
        }
    }
}
