// How large a rig is.
ghost use Rattle.std.specs.Prelude.{◌≡◌, MatchOption, IsTrue, false};
ghost use Rattle.parts.specs.Sizes.{in_range};

/// The most heads of a rig.
pub const MOST_HEADS: u32 = 8;

/// The most cells of a rig.
pub const MOST_CELLS: u32 = 1024;

/// A size that a rig may have: 1 to 8 heads, and 1 to 1,024 cells.
#[derive(Clone, Copy, Debug, PartialEq, Eq)]
pub struct Size {
    pub heads: u32,
    pub cells: u32,
    ghost good: { IsTrue (in_range heads cells) },
}

impl Size {
    /// So many heads and cells, if a rig may have them.
    pub fn new(heads: u32, cells: u32) -> Option<Size>
        ensures { MatchOption result (in_range heads cells ≡ false) (λ size. (size.heads ≡ heads) × (size.cells ≡ cells)) }
    {
        if (1..=MOST_HEADS).contains(&heads) && (1..=MOST_CELLS).contains(&cells) {
            Some(Size { heads, cells })
        } else {
            None
        }
    }
}
