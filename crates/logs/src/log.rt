// A log as it is looked into.
ghost use Rattle.std.specs.Prelude.{◌≡◌, ◌≤◌, ◌==◌, length, min, nat_le, take, drop};
ghost use Rattle.std.specs.List.{position};
ghost use Rattle.rules.specs.Logs.{log_of, word_for, lacks_room_for, touches, is_empty, put_in};
ghost use Rattle.logs.specs.Lines.{most_counted, shares_line};

use parts::{Board, Word};
use rules::{SLOTS, Slot};
use std::marker::Model;

/// A head's part of the slots, and how many of them its log has: the first ones. The lowest slot that names a cell counts.
#[derive(Drop)]
pub struct Log<'a, W> {
    pub(crate) part: &'a [Slot<W>],
    pub(crate) count: usize,
}

impl<'a, W> Model for Log<'a, W> {
    ghost use Rattle.std.specs.Prelude.{◌≤◌, List, length, take};
    ghost use Rattle.rules.specs.declared.types.Slot.{Slot};
    ghost use Rattle.logs.specs.Lines.{most_counted};

    // the slots of the log
    ghost Value = { List (Slot W) };

    ghost view = { λ l. take l.count l.part.now };

    // a count has 8 bits
    ghost invariant = { λ l. (l.count ≤ length l.part.now) × (l.count ≤ most_counted) };
}

// The slots from a place on.
fn slots_from<W>(slots: &[Slot<W>], first: usize) -> &[Slot<W>]
    ensures { result.now ≡ drop first slots.now }
{
    &slots[first.min(slots.len())..]
}

impl<'a, W: Word> Log<'a, W> {
    /// The log of a head: the first `count` slots of its part, as far as the list goes.
    pub fn of_head(slots: &'a [Slot<W>], head: u32, count: u8) -> Log<'a, W>
        ensures { result ≡ log_of head count slots.now }
    {
        let part = slots_from(slots, SLOTS * head as usize);
        let count = usize::from(count).min(part.len());
        Log { part, count }
    }

    /// The slots of the log.
    pub fn slots(&self) -> &'a [Slot<W>]
        ensures slots { result.now ≡ self.now }
        ensures few { length result.now ≤ most_counted }
    {
        &self.part[..self.count]
    }

    /// At most `count` slots of the log, from the place `first` on.
    pub fn range(&self, first: usize, count: usize) -> Log<'a, W>
        ensures { result ≡ take count (drop first self.now) }
    {
        let part = slots_from(self.slots(), first);
        let count = count.min(part.len());
        Log { part, count }
    }

    /// How many slots the log has.
    pub fn len(&self) -> usize
        ensures { result ≡ length self.now }
    {
        self.slots().len()
    }

    pub fn is_empty(&self) -> bool
        ensures { result ≡ is_empty self.now }
    {
        self.slots().is_empty()
    }

    /// Whether the log has all the slots that a log can have.
    pub fn is_full(&self) -> bool
        ensures { result ≡ nat_le SLOTS (length self.now) }
    {
        self.len() >= SLOTS
    }

    // The place of the lowest slot that names the cell. Every look-up is this search.
    pub(crate) fn place_of(&self, cell: u32) -> Option<usize>
        ensures { result ≡ position (λ s. cell == s.cell) self.now }
    {
        self.slots().iter().position(|slot| cell == slot.cell)
    }

    /// The word that the log has for the cell, if it has one.
    #[tactic(auto, using(crate::proofs::Lookups::word_found, crate::proofs::Lookups::word_not_found))]
    pub fn word_for(&self, cell: u32) -> Option<W>
        ensures { result ≡ word_for cell self.now }
    {
        match self.place_of(cell) {
            Some(place) => Some(self.slots()[place].word),
            None => None,
        }
    }

    /// Whether a new slot is needed for the cell, and the log has them all.
    #[tactic(auto, using(crate::proofs::Lookups::room_found, crate::proofs::Lookups::room_not_found))]
    pub fn lacks_room_for(&self, cell: u32) -> bool
        ensures { result ≡ lacks_room_for cell self.now }
    {
        match self.place_of(cell) {
            Some(_) => false,
            None => self.is_full(),
        }
    }

    /// Whether a cell of the log is on the line.
    pub fn touches<B: Board>(&self, board: &B, line: u32) -> bool
        ensures { result ≡ touches (B.Board.line board.now) line self.now }
    {
        self.slots().iter().any(|s| line == board.line(s.cell))
    }

    /// Whether a cell of this log is on the line of one of the other's.
    pub fn shares_line<B: Board>(&self, board: &B, other: &Log<'_, W>) -> bool
        ensures { result ≡ shares_line (B.Board.line board.now) self.now other.now }
    {
        for slot in self.slots() {
            if other.touches(board, board.line(slot.cell)) {
                return true;
            }
        }
        false
    }

    /// Puts the log's words into the cells, in order; a cell that is not there gets none.
    pub fn put_into(&self, cells: &mut [W])
        ensures { cells.new ≡ put_in self.now cells.old }
    {
        for slot in self.slots() {
            let cell = slot.cell as usize;
            if cell < cells.len() {
                cells[cell] = slot.word;
            }
        }
    }
}
