// Value-based validation, for every kind of word.
ghost use Rattle.std.specs.Prelude.{◌≡◌, ◌≤◌, length, nat_lt, if◌then◌else◌};
ghost use Rattle.std.specs.List.{list_all, prefix_len};
ghost use Rattle.rules.specs.Logs.{holds, cells_loaded};
ghost use Rattle.logs.specs.Validations.{Finds};

use crate::log::Log;
use parts::Word;
use rules::Slot;

/// What validation finds, with the slots whose cells it has loaded.
#[derive(Drop)]
pub enum Validation<'a, W> {
    /// every cell holds its slot's word still
    Valid(Log<'a, W>),
    /// a cell holds another word than the one that was read
    Changed(Log<'a, W>),
}

// Whether the slot's cell holds the slot's word; a cell that is not there does not.
fn holds<W: Word>(cells: &[W], slot: &Slot<W>) -> bool
    ensures { result ≡ holds W.Word.same cells.now slot.now }
{
    match cells.get(slot.cell as usize) {
        Some(word) => word.same(slot.word),
        None => false,
    }
}

// How many slots of the log come before the first whose cell does not hold its word.
fn unchanged<W: Word>(cells: &[W], log: &Log<'_, W>) -> usize
    ensures { result ≡ prefix_len (holds W.Word.same cells.now) log.now }
{
    let mut count = 0;
    for slot in log.slots() {
        if !holds(cells, slot) {
            return count;
        }
        count += 1;
    }
    count
}

// How many cells validation loads for the slot: none, if there is no such cell.
fn cells_there<W: Word>(cells: &[W], slot: &Slot<W>) -> usize
    ensures value { result ≡ (if nat_lt slot.now.cell (length cells.now) then 1 else 0) }
    ensures bound { result ≤ 1 }
{
    if (slot.cell as usize) < cells.len() {
        1
    } else {
        0
    }
}

/// Takes the log in order, and stops at the first slot whose cell does not hold its word. A cell that is not there is
/// not loaded.
#[tactic(auto, using(crate::proofs::Validated::all_hold, crate::proofs::Validated::all_loaded, crate::proofs::Validated::some_changed, crate::proofs::Validated::first_loaded))]
pub fn validate<'a, W: Word>(cells: &[W], log: &Log<'a, W>) -> Validation<'a, W>
    ensures { Finds (list_all (holds W.Word.same cells.now) log.now) (cells_loaded W.Word.same cells.now log.now) result }
{
    let held = unchanged(cells, log);
    if held >= log.len() {
        return Validation::Valid(log.range(0, held));
    }
    let there = cells_there(cells, &log.slots()[held]);
    Validation::Changed(log.range(0, held + there))
}
