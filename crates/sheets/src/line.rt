// A line of a run sheet as it is written: from its last part to its first, since a numeral is written from its last
// digit to its first.
ghost use Rattle.std.specs.Prelude.{◌≡◌, ◌+◌, ◌≤◌, [], ◌++◌, length};
ghost use Rattle.std.specs.Fmt.{decimal, signed_decimal};
ghost use Rattle.std.specs.Str.{IsUtf8};

use itoa::write_digits;
use std::marker::Model;
use std::str;

// A line has at most three numbers of 64 bits, each with up to 20 digits and a sign, and besides them a letter or the
// word `cell`, three tabs and a newline.
const ROOM: usize = 72;

// The text from `start` on is written.
#[derive(Drop)]
pub(crate) struct Line {
    bytes: [u8; ROOM],
    start: usize,
}

impl Model for Line {
    ghost use Rattle.std.specs.Prelude.{ℕ, ◌≤◌, List, drop};
    ghost use Rattle.std.specs.Str.{IsUtf8};
    ghost use Rattle.sheets.specs.declared.line.TheConstants.{ROOM};

    ghost Value = { List ℕ };

    ghost view = { λ l. drop l.start l.bytes };

    ghost invariant = { λ l. (l.start ≤ ROOM) × IsUtf8 (drop l.start l.bytes) };
}

impl Line {
    // A line with nothing in it.
    pub(crate) fn new() -> Line
        ensures { result ≡ [] }
    {
        Line {
            bytes: [0; ROOM],
            start: ROOM,
        }
    }

    // Writes a text before what is there.
    pub(crate) fn put(&mut self, text: &str)
        requires { length text.now + length self.old ≤ ROOM }
        ensures text { self.new ≡ text.now ++ self.old }
        ensures len { length self.new ≡ length text.now + length self.old }
    {
        let end = self.start;
        self.start -= text.len();
        self.bytes[self.start..end].copy_from_slice(text.as_bytes());
    }

    // Writes a numeral before what is there.
    pub(crate) fn put_number(&mut self, number: u64)
        requires { 20 + length self.old ≤ ROOM }
        ensures text { self.new ≡ decimal number ++ self.old }
        ensures len { length self.new ≤ 20 + length self.old }
    {
        self.start = write_digits(number, &mut self.bytes, self.start);
    }

    // Writes the numeral of a signed number before what is there.
    pub(crate) fn put_signed(&mut self, number: i64)
        requires { 21 + length self.old ≤ ROOM }
        ensures text { self.new ≡ signed_decimal number ++ self.old }
        ensures len { length self.new ≤ 21 + length self.old }
    {
        self.put_number(number.unsigned_abs());
        if number < 0 {
            self.put("-");
        }
    }

    // What is written.
    pub(crate) fn as_bytes(&self) -> &[u8]
        ensures value { result.now ≡ self.now }
        ensures utf8 { IsUtf8 result.now }
    {
        &self.bytes[self.start..]
    }

    // What is written, as text.
    pub(crate) fn as_str(&self) -> &str
        ensures { result.now ≡ self.now }
    {
        match str::from_utf8(self.as_bytes()) {
            Ok(text) => text,
            Err(_) => unreachable!(),
        }
    }
}
