// Why a walk ends early.
ghost use Rattle.std.specs.Prelude.{◌≡◌};
ghost use Rattle.walkthrough.specs.declared.stopped.Stopped.TheVariants as stopped;

use handles::Refused;
use rules::Refusal;
use std::io;

#[derive(Drop)]
pub(crate) enum Stopped {
    Refused(Refusal),
    NotPrinted(io::Error),
}

impl From<Refusal> for Stopped {
    ghost from_gives = { λ e r. r ≡ stopped.Refused e };

    fn from(e: Refusal) -> Stopped {
        Stopped::Refused(e)
    }
}

// The handle that came back is let go with it.
impl<H: Drop> From<Refused<H>> for Stopped {
    ghost from_gives = { λ e r. r ≡ stopped.Refused e.refusal };

    fn from(e: Refused<H>) -> Stopped {
        Stopped::Refused(e.refusal)
    }
}

impl From<io::Error> for Stopped {
    ghost from_gives = { λ e r. r ≡ stopped.NotPrinted e };

    fn from(e: io::Error) -> Stopped {
        Stopped::NotPrinted(e)
    }
}
