// Why a reading ended before the text did. Each `From` is written out, since contracts read what it gives.
ghost use Rattle.std.specs.Prelude.{◌≡◌};
ghost use Rattle.scenario.specs.declared.types.ReadError.TheVariants as error;

use crate::types::ReadError;
use faults::RigFault;
use std::alloc::AllocError;

impl From<RigFault> for ReadError {
    ghost from_gives = { λ f r. r ≡ error.Fault f };

    fn from(f: RigFault) -> ReadError {
        ReadError::Fault(f)
    }
}

impl From<AllocError> for ReadError {
    ghost from_gives = { λ e r. r ≡ error.NoMemory e };

    fn from(e: AllocError) -> ReadError {
        ReadError::NoMemory(e)
    }
}
