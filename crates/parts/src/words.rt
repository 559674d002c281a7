// What a cell can hold.
ghost use Rattle.std.specs.Prelude.{◌≡◌, ◌↔◌, Bool, IsTrue};
ghost use Rattle.parts.specs.Words.{same_amount, same_rate};
ghost use Rattle.std.proofs.Common.{rules};

use crate::types::Rate;

/// A word: it can be copied, and two of them can be told apart.
pub trait Word: Copy {
    ghost same: { Self → Self → Bool };

    fn same(self, other: Self) -> bool
        ensures { result ≡ same self other };

    // Two words are the same exactly when they are equal in every part.
    ghost exact: { (x y : Self) → IsTrue (same x y) ↔ (x ≡ y) };
}

// An amount is a signed number of 32 bits. Each kind of word says by itself what sameness means, in one line.
impl Word for i32 {
    ghost same = { same_amount };

    ghost exact = { Prim.search rules };

    fn same(self, other: i32) -> bool {
        self == other
    }
}

impl Word for Rate {
    ghost same = { same_rate };

    ghost exact = { Prim.search rules };

    fn same(self, other: Rate) -> bool {
        self == other
    }
}
