// The lines of a run sheet, one after another.
ghost use Rattle.std.specs.Prelude.{◌≡◌, [], ◌++◌, IfOk, OnOk, string_bytes};
ghost use Rattle.std.specs.Str.{IsAscii};

use crate::line::Line;
use std::alloc::{AllocError, Global};
use std::marker::Model;

// Bytes, and not a `String`, since that would read each line again as it comes, to see that it is text.
#[derive(Drop)]
pub(crate) struct Lines {
    bytes: Vec<u8>,
}

impl Model for Lines {
    ghost use Rattle.std.specs.Prelude.{ℕ, List};
    ghost use Rattle.std.specs.Str.{IsUtf8};

    ghost Value = { List ℕ };

    ghost view = { λ l. l.bytes.items };

    ghost invariant = { λ l. IsUtf8 l.bytes.items };
}

impl Lines {
    // No lines. The room that is made for so many bytes is no promise.
    pub(crate) fn with_room(heap: Global, bytes: usize) -> Result<Lines, AllocError>
        ensures { IfOk result (λ l. l ≡ []) }
    {
        let bytes = Vec::with_capacity(heap, bytes)?;
        Ok(Lines { bytes })
    }

    pub(crate) fn push(&mut self, line: &Line) -> Result<(), AllocError>
        ensures { OnOk result (self.new ≡ self.old ++ line.now) }
    {
        self.bytes.extend_from_slice(line.as_bytes())
    }

    // Adds a line of eight bytes. It is stored at once, since its length is known.
    pub(crate) fn push_short(&mut self, line: &[u8; 8]) -> Result<(), AllocError>
        requires { IsAscii line.now }
        ensures { OnOk result (self.new ≡ self.old ++ line.now) }
    {
        self.bytes.extend_from_slice(line)
    }

    pub(crate) fn into_text(self) -> String
        ensures { string_bytes result ≡ self }
    {
        match String::from_utf8(self.bytes) {
            Ok(text) => text,
            Err(_) => unreachable!(),
        }
    }
}
