// What a handle holds.
ghost use Rattle.std.specs.Prelude.{◌≡◌};
ghost use Rattle.handles.specs.Handles.{caller_of};

use rules::Caller;

// A transaction, by its head and its number. It is made where it opens, and only moved from then on: no `Clone`, no `Copy`.
#[derive(Debug, PartialEq, Eq, Drop)]
pub(crate) struct Transaction {
    pub(crate) head: u32,
    pub(crate) number: u32,
}

impl Transaction {
    // Who calls by a handle of it.
    pub(crate) fn caller(&self) -> Caller
        ensures { result ≡ caller_of self.now }
    {
        Caller {
            head: self.head,
            transaction: Some(self.number),
        }
    }
}
