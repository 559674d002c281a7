// Each layer carries the lower layer's fault whole.
// Each `From` is written out, since contracts read what it gives.
ghost use Rattle.std.specs.Prelude.{◌≡◌};
ghost use Rattle.faults.specs.declared.types.LineFault.TheVariants as in_line;
ghost use Rattle.faults.specs.declared.types.RigFault.TheVariants as in_rig;

use crate::types::{FieldFault, LineFault, RigFault};

impl From<FieldFault> for LineFault {
    ghost from_gives = { λ f r. r ≡ in_line.Field f };

    fn from(f: FieldFault) -> LineFault {
        LineFault::Field(f)
    }
}

impl From<LineFault> for RigFault {
    ghost from_gives = { λ f r. r ≡ in_rig.Line f };

    fn from(f: LineFault) -> RigFault {
        RigFault::Line(f)
    }
}
