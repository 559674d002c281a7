// Parts of a text, and what hands them out.
ghost use Rattle.std.specs.Prelude.{◌+◌, ◌^◌, ◌<◌, length};

use faults::Place;
use std::marker::Model;

/// A part of the text: where it begins, and its bytes, which are borrowed from the text.
#[derive(Clone, Copy, Debug, PartialEq, Eq)]
pub struct Part<'a> {
    pub place: Place,
    pub bytes: &'a [u8],
}

/// A line without its newline, or what is left of one. The ghost field says that each of its bytes has a place.
#[derive(Clone, Copy, Debug, PartialEq, Eq)]
pub struct Line<'a> {
    pub part: Part<'a>,
    ghost inside: { part.place.byte + length part.bytes.now < 2 ^ 64 },
}

/// The fields of a line that are still to be handed out. Not compared, as the iterators of std are not.
#[derive(Drop, Debug)]
pub struct Fields<'a> {
    // what is left of the line; nothing once its last field is handed out
    pub(crate) rest: Option<Line<'a>>,
}

impl<'a> Model for Fields<'a> {
    ghost use Rattle.std.specs.Prelude.{List};
    ghost use Rattle.fields.specs.Parts.{Piece, fields_of};

    ghost Value = { List Piece };

    ghost view = { λ fields. fields_of fields.rest };
}

/// The lines of a text that are still to be handed out. Not compared, as the iterators of std are not.
#[derive(Drop, Debug)]
pub struct Reader<'a> {
    // what is left of the text, from where the next line begins
    pub(crate) rest: Part<'a>,
}

impl<'a> Model for Reader<'a> {
    ghost use Rattle.std.specs.Prelude.{◌+◌, ◌^◌, ◌<◌, length, List};
    ghost use Rattle.fields.specs.Parts.{Piece, lines_at};

    ghost Value = { List Piece };

    ghost view = { λ reader. lines_at reader.rest.place reader.rest.bytes.now };

    // No place can wrap.
    ghost invariant = { λ reader.
        (reader.rest.place.byte + length reader.rest.bytes.now < 2 ^ 64)
        × (reader.rest.place.line + length reader.rest.bytes.now < 2 ^ 64) };
}
