// A log as it is added to.
ghost use Rattle.std.specs.Prelude.{◌≡◌, ◌<◌, ◌≤◌, length, min, slice_set, take};
ghost use Rattle.rules.specs.Logs.{put, note};
ghost use Rattle.logs.specs.Growth.{Grown, room_in, grown, pushed};

use crate::log::Log;
use parts::Word;
use rules::{Refusal, SLOTS, Slot};

/// A head's part of the slots as its log is added to: its log is the first of them, so many as its count says. Made in a
/// function that is given the part alone: a caller that makes one over a part of a longer list does not learn what the list
/// then holds.
#[derive(Drop)]
pub struct LogMut<'a, W> {
    part: &'a mut [Slot<W>],
    count: usize,
    ghost within: { count ≤ room_in part.now },
}

// Replaces the slot at a place.
fn replace<W: Word>(slots: &mut [Slot<W>], place: usize, slot: Slot<W>)
    requires { place < length slots.old }
    ensures { slots.new ≡ slice_set slots.old place slot }
{
    slots[place] = slot;
}

impl<'a, W: Word> LogMut<'a, W> {
    ghost use Rattle.logs.specs.LogMuts.{part_in, log_in, grown_to, IsOver, StaysOver};

    /// The log that is the first `count` slots of the part, as far as it can have so many.
    pub fn new(part: &'a mut [Slot<W>], count: u8) -> LogMut<'a, W>
        ensures over { IsOver part.entry result }
        ensures part { part_in result ≡ part.old }
        ensures log { log_in result ≡ take (min count (room_in part.old)) part.old }
    {
        let count = usize::from(count).min(part.len()).min(SLOTS);
        LogMut { part, count }
    }

    /// How many slots the log has.
    pub fn len(&self) -> usize
        ensures { result ≡ length (log_in self.now) }
    {
        self.as_log().len()
    }

    /// The log as it is looked into.
    pub fn as_log(&self) -> Log<'_, W>
        ensures { result ≡ log_in self.now }
    {
        Log {
            part: &*self.part,
            count: self.count,
        }
    }

    // Replaces the slot at a place of the log.
    #[tactic(auto, using(crate::proofs::Placed::replaced))]
    fn replace(&mut self, place: usize, slot: Slot<W>)
        requires { place < self.old.count }
        ensures over { StaysOver self.old self.new }
        ensures part { part_in self.new ≡ slice_set (part_in self.old) place slot }
        ensures count { self.new.count ≡ self.old.count }
    {
        replace(&mut self.part[..self.count], place, slot);
    }

    // Adds a slot behind those of the log.
    fn push(&mut self, slot: Slot<W>) -> Result<(), Refusal>
        ensures over { StaysOver self.old self.new }
        ensures pushed { grown_to result self.new ≡ pushed slot (part_in self.old) self.old.count }
    {
        if self.count >= self.part.len().min(SLOTS) {
            return Err(Refusal::Full);
        }
        self.part[self.count] = slot;
        self.count += 1;
        Ok(())
    }

    /// Replaces the cell's slot, or adds one. Refused with `Full` where that needs a slot and there is none.
    pub fn put(&mut self, cell: u32, word: W) -> Result<(), Refusal>
        ensures over { StaysOver self.old self.new }
        ensures grown { grown_to result self.new ≡ grown cell (put cell word (log_in self.old)) (log_in self.old) (part_in self.old) }
    {
        let slot = Slot { cell, word };
        match self.as_log().place_of(cell) {
            Some(place) => {
                self.replace(place, slot);
                Ok(())
            }
            None => self.push(slot),
        }
    }

    /// Adds a slot, unless the log has one for the cell. Refused with `Full` where that needs a slot and there is none.
    pub fn note(&mut self, cell: u32, word: W) -> Result<(), Refusal>
        ensures over { StaysOver self.old self.new }
        ensures grown { grown_to result self.new ≡ grown cell (note cell word (log_in self.old)) (log_in self.old) (part_in self.old) }
    {
        match self.as_log().place_of(cell) {
            Some(_) => Ok(()),
            None => self.push(Slot { cell, word }),
        }
    }
}
