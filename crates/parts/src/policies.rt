// Retry policies: how a transaction goes on after a hardware attempt has aborted.
ghost use Rattle.std.specs.Prelude.{◌≡◌, ◌≢◌, ℕ, ◌≤◌};
ghost use Rattle.parts.specs.declared.types.Cause.{Cause};
ghost use Rattle.parts.specs.declared.types.Cause.TheVariants as causes;
ghost use Rattle.parts.specs.declared.types.Mode.{Mode};
ghost use Rattle.parts.specs.declared.types.Mode.TheVariants as modes;
ghost use Rattle.parts.specs.declared.policies.TheConstants.{PLAIN_PATIENCE, CAREFUL_PATIENCE};
ghost use Rattle.parts.specs.Policies.{software_from, plain_mode, careful_mode};
ghost use Rattle.std.proofs.Common.{rules};

use crate::types::{Cause, Mode};

/// The patience of [`Plain`]: the most hardware attempts of a transaction.
pub const PLAIN_PATIENCE: u32 = 3;

/// The patience of [`Careful`].
pub const CAREFUL_PATIENCE: u32 = 16;

/// A policy answers from the cause of the latest abort and the number of the transaction's hardware aborts.
pub trait Policy {
    ghost next: { Self → Cause → ℕ → Mode };

    // the most hardware attempts of a transaction
    ghost patience: { Self → ℕ };

    fn next(&self, cause: Cause, aborts: u32) -> Mode
        ensures { result ≡ next self.now cause aborts };

    // From as many hardware aborts on, the answer is software, after each cause that ends a hardware attempt.
    ghost software_from_patience: { (p : Self) (c : Cause) (aborts : ℕ) → c ≢ causes.Changed → patience p ≤ aborts → next p c aborts ≡ modes.Software };

    ghost at_least_one: { (p : Self) → 1 ≤ patience p };

    ghost at_most_64: { (p : Self) → patience p ≤ 64 };
}

// In software from the n-th abort on.
fn software_from(n: u32, aborts: u32) -> Mode
    ensures { result ≡ software_from n aborts }
{
    if n <= aborts {
        Mode::Software
    } else {
        Mode::Hardware
    }
}

/// Software from the third hardware abort on.
#[derive(Clone, Copy, Debug, PartialEq, Eq)]
pub struct Plain;

impl Policy for Plain {
    ghost next = { λ _ c aborts. plain_mode c aborts };

    ghost patience = { λ _. PLAIN_PATIENCE };

    ghost software_from_patience = { Prim.search rules };

    ghost at_least_one = { Prim.search rules };

    ghost at_most_64 = { Prim.search rules };

    fn next(&self, _cause: Cause, aborts: u32) -> Mode {
        software_from(PLAIN_PATIENCE, aborts)
    }
}

/// Software at once after capacity, from the fifth hardware abort on after lock or an interrupt, from the sixteenth on after conflict.
#[derive(Clone, Copy, Debug, PartialEq, Eq)]
pub struct Careful;

impl Policy for Careful {
    ghost next = { λ _ c aborts. careful_mode c aborts };

    ghost patience = { λ _. CAREFUL_PATIENCE };

    ghost software_from_patience = { Prim.search rules };

    ghost at_least_one = { Prim.search rules };

    ghost at_most_64 = { Prim.search rules };

    fn next(&self, cause: Cause, aborts: u32) -> Mode {
        let n = match cause {
            Cause::Conflict => CAREFUL_PATIENCE,
            Cause::Lock | Cause::Other => 5,
            Cause::Capacity | Cause::Changed => 0,
        };
        software_from(n, aborts)
    }
}
