// Handing out the lines of a text and the fields of a line.
ghost use Rattle.std.specs.Prelude.{◌≡◌, ◌+◌, ◌^◌, ◌<◌, ◌==◌, ◌∷◌, length, position};
ghost use Rattle.std.specs.Iterator.{YieldsFirstBy, item_count};
ghost use Rattle.fields.specs.Parts.{CutAt, piece, line_piece, lines_at, fields_at, fields_of, text_start, Lined, FieldsOfLine};

use crate::parts::{Fields, Line, Part, Reader};
use faults::{NEWLINE, Place, TAB};

// How many bytes come before the first byte b, if there is one.
fn before(bytes: &[u8], b: u8) -> Option<usize>
    ensures { result ≡ position (λ x. x == b) bytes.now }
{
    bytes.iter().position(|x| *x == b)
}

// The bytes before the first byte b, and those after it, if there is one.
fn cut(bytes: &[u8], b: u8) -> (&[u8], Option<&[u8]>)
    ensures { CutAt b bytes.now result.0.now result.1 }
{
    match before(bytes, b) {
        Some(n) => (&bytes[..n], Some(&bytes[n + 1..])),
        None => (bytes, None),
    }
}

// The first line of what is left of a text, and what is left after it.
fn first_line<'a>(text: Part<'a>) -> (Line<'a>, Part<'a>)
    requires some { 0 < length text.bytes.now }
    requires inside { text.place.byte + length text.bytes.now < 2 ^ 64 }
    requires counted { text.place.line + length text.bytes.now < 2 ^ 64 }
    ensures handed { lines_at text.entry.place text.entry.bytes.now ≡ line_piece result.0 ∷ lines_at result.1.place result.1.bytes.now }
    ensures inside { result.1.place.byte + length result.1.bytes.now < 2 ^ 64 }
    ensures counted { result.1.place.line + length result.1.bytes.now < 2 ^ 64 }
{
    let Part { place, bytes } = text;
    let (first, rest) = cut(bytes, NEWLINE);
    let rest = rest.unwrap_or(&[]);
    let next = Place {
        line: place.line + 1,
        byte: place.byte + (bytes.len() - rest.len()),
    };
    let line = Line {
        part: Part {
            place,
            bytes: first,
        },
    };
    (
        line,
        Part {
            place: next,
            bytes: rest,
        },
    )
}

// The first field of a line, and what is left after it, if that is a field too.
fn first_field<'a>(line: Line<'a>) -> (Part<'a>, Option<Line<'a>>)
    ensures { fields_at (line_piece line.entry) ≡ piece result.0 ∷ fields_of result.1 }
{
    let Part { place, bytes } = line.part;
    let (first, rest) = cut(bytes, TAB);
    let field = Part {
        place,
        bytes: first,
    };
    // no plainer by `map`: its closure would want clauses of its own, that the place fits and which field comes next
    let Some(rest) = rest else {
        return (field, None);
    };
    let next = Place {
        line: place.line,
        byte: place.byte + first.len() + 1,
    };
    (
        field,
        Some(Line {
            part: Part {
                place: next,
                bytes: rest,
            },
        }),
    )
}

// All fields of a line.
fn all_fields<'a>(line: Line<'a>) -> Fields<'a>
    ensures { result ≡ fields_at (line_piece line.entry) }
{
    Fields { rest: Some(line) }
}

impl<'a> Line<'a> {
    /// The fields of the line, of which there is at least one.
    pub fn fields(self) -> Fields<'a>
        ensures fields { result ≡ fields_at (line_piece self.entry) }
        ensures parted { FieldsOfLine (line_piece self.entry) result }
    {
        all_fields(self)
    }
}

// The next field is handed out, and the others are left.
impl<'a> Iterator for Fields<'a> {
    type Item = Part<'a>;

    ghost next_gives = { YieldsFirstBy piece (λ fields. fields) };

    ghost remaining = { item_count (λ fields. fields) };

    fn next(&mut self) -> Option<Part<'a>> {
        let (field, rest) = first_field(self.rest?);
        self.rest = rest;
        Some(field)
    }
}

// All lines of a text.
fn all_lines(text: &[u8]) -> Reader
    ensures { result ≡ lines_at text_start text.now }
{
    let place = Place { line: 1, byte: 0 };
    Reader {
        rest: Part { place, bytes: text },
    }
}

impl<'a> Reader<'a> {
    /// A reader of the whole text, before its first line.
    pub fn new(text: &'a [u8]) -> Reader<'a>
        ensures lines { result ≡ lines_at text_start text.now }
        ensures parted { Lined text.now result }
    {
        all_lines(text)
    }
}

// The next line is handed out, without its newline, and the others are left.
impl<'a> Iterator for Reader<'a> {
    type Item = Line<'a>;

    ghost next_gives = { YieldsFirstBy line_piece (λ lines. lines) };

    ghost remaining = { item_count (λ lines. lines) };

    fn next(&mut self) -> Option<Line<'a>> {
        if self.rest.bytes.is_empty() {
            return None;
        }
        let (line, rest) = first_line(self.rest);
        self.rest = rest;
        Some(line)
    }
}
