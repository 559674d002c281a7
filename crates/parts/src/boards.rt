// The hardware below a rig: which line of memory a cell is on, and how much fits into an attempt.
ghost use Rattle.std.specs.Prelude.{◌≡◌, ℕ, Bool};
ghost use Rattle.parts.specs.Boards.{stores_line, stores_fit, lines_line, lines_fit, with_margin};

/// A board has two fixed meanings, and asking it changes neither.
pub trait Board {
    ghost line: { Self → ℕ → ℕ };

    ghost fits: { Self → ℕ → ℕ → Bool };

    /// The line of a cell.
    fn line(&self, cell: u32) -> u32
        ensures { result ≡ line self.now cell };

    /// Whether a hardware attempt with so many stores and so many lines touched fits.
    fn fits(&self, stores: u16, lines: u16) -> bool
        ensures { result ≡ fits self.now stores lines };
}

/// Eight cells to a line; at most 32 stores.
#[derive(Clone, Copy, Debug, PartialEq, Eq)]
pub struct StoresBoard;

impl Board for StoresBoard {
    ghost line = { λ _ c. stores_line c };

    ghost fits = { λ _ s l. stores_fit s l };

    fn line(&self, cell: u32) -> u32 {
        cell / 8
    }

    fn fits(&self, stores: u16, _lines: u16) -> bool {
        stores <= 32
    }
}

/// Four cells to a line; at most four lines touched.
/// Its `line` is not shared with the other board's: one division by a constant is shorter than a call of one.
#[derive(Clone, Copy, Debug, PartialEq, Eq)]
pub struct LinesBoard;

impl Board for LinesBoard {
    ghost line = { λ _ c. lines_line c };

    ghost fits = { λ _ s l. lines_fit s l };

    fn line(&self, cell: u32) -> u32 {
        cell / 4
    }

    fn fits(&self, _stores: u16, lines: u16) -> bool {
        lines <= 4
    }
}

/// A board that keeps four stores and one line of the board below free for the interrupt handler.
#[derive(Clone, Copy, Debug, PartialEq, Eq)]
pub struct Margin<B: Board> {
    pub below: B,
}

impl<B: Board> Board for Margin<B> {
    ghost line = { λ m c. B.Board.line m.below c };

    ghost fits = { λ m s l. with_margin (B.Board.fits m.below) s l };

    fn line(&self, cell: u32) -> u32 {
        self.below.line(cell)
    }

    fn fits(&self, stores: u16, lines: u16) -> bool {
        self.below
            .fits(stores.saturating_add(4), lines.saturating_add(1))
    }
}
