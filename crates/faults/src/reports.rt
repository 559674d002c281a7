// Faults as they are printed.
ghost use Rattle.std.specs.Prelude.{◌≡◌, Some};
ghost use Rattle.faults.specs.Reports.{place_text, field_report, line_report, report_of, layer_text, report_text};

use crate::texts::LONGEST;
use crate::types::{FieldFault, Layer, LineFault, Place, Report, RigFault};
use std::fmt;

impl From<FieldFault> for Report {
    ghost from_gives = { λ f r. r ≡ field_report f };

    fn from(fault: FieldFault) -> Report {
        let (number, place) = match fault {
            FieldFault::UnknownWord(place) => (21, place),
            FieldFault::BadNumber(place) => (23, place),
        };
        Report {
            number,
            place,
            layer: Layer::Field,
        }
    }
}

impl From<LineFault> for Report {
    ghost from_gives = { λ f r. r ≡ line_report f };

    fn from(fault: LineFault) -> Report {
        let (number, place) = match fault {
            LineFault::Field(fault) => return fault.into(),
            LineFault::UnknownWord(place) => (21, place),
            LineFault::Miscounted(place) => (22, place),
            LineFault::Misplaced(place) => (24, place),
            LineFault::TooLong => (
                25,
                Place {
                    line: 0,
                    byte: LONGEST,
                },
            ),
        };
        Report {
            number,
            place,
            layer: Layer::Line,
        }
    }
}

impl From<RigFault> for Report {
    ghost from_gives = { λ f r. r ≡ report_of f };

    fn from(fault: RigFault) -> Report {
        let (number, place) = match fault {
            RigFault::Line(fault) => return fault.into(),
            RigFault::NoSuchCell(place) => (4, place),
            RigFault::BadRig(place) => (11, place),
        };
        Report {
            number,
            place,
            layer: Layer::Rig,
        }
    }
}

impl fmt::Display for Place {
    ghost output = { λ p. Some (place_text p) };

    fn fmt<W: fmt::Write>(&self, f: &mut fmt::Formatter<W>) -> fmt::Result {
        let Place { line, byte } = *self;
        write!(f, "line {line}, byte {byte}")
    }
}

// A match of its own, as for the words of the format: the words are all that these differ in.
impl fmt::Display for Layer {
    ghost output = { λ l. Some (layer_text l) };

    fn fmt<W: fmt::Write>(&self, f: &mut fmt::Formatter<W>) -> fmt::Result {
        f.write_str(match self {
            Layer::Field => "field",
            Layer::Line => "line",
            Layer::Rig => "rig",
        })
    }
}

impl fmt::Display for Report {
    ghost output = { λ r. Some (report_text r) };

    fn fmt<W: fmt::Write>(&self, f: &mut fmt::Formatter<W>) -> fmt::Result {
        let Report {
            number,
            place: Place { line, byte },
            layer,
        } = *self;
        write!(f, "fault\t{number}\t{line}\t{byte}\t{layer}")
    }
}
