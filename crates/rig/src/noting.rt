// Slots that are added to a head's logs.
ghost use Rattle.std.specs.Prelude.{◌≡◌, ◌+◌, ◌*◌, ◌<◌, ◌≤◌, false, length, take};
ghost use Rattle.logs.specs.Growth.{laid};
ghost use Rattle.rules.specs.Logs.{lacks_room_for, log_of, note, put, slots_with};

use logs::LogMut;
use parts::Word;
use rules::{SLOTS, Slot};

// Notes a word in a log that has room for it, over its head's part alone, and gives the new count.
fn note_in_part<W: Word>(part: &mut [Slot<W>], count: u8, cell: u32, word: W) -> u8
    requires size { length part.old ≡ SLOTS }
    requires few { count ≤ SLOTS }
    requires room { lacks_room_for cell (take count part.old) ≡ false }
    ensures part { part.new ≡ laid (note cell word (take count part.old)) part.old }
    ensures count { result ≡ length (note cell word (take count part.old)) }
{
    let mut log = LogMut::new(part, count);
    let _ = log.note(cell, word);
    log.len() as u8
}

// Notes a word in the log of a head, which has room for it, and gives the log's new count.
#[tactic(auto, using(crate::proofs::Noted::note_back))]
pub(crate) fn note_word<W: Word>(
    slots: &mut [Slot<W>],
    head: u32,
    count: u8,
    cell: u32,
    word: W,
) -> u8
    requires part { SLOTS * head + SLOTS ≤ length slots.old }
    requires few { count ≤ SLOTS }
    requires room { lacks_room_for cell (log_of head count slots.old) ≡ false }
    ensures slots { slots.new ≡ slots_with head (note cell word (log_of head count slots.old)) slots.old }
    ensures count { result ≡ length (note cell word (log_of head count slots.old)) }
{
    let first = SLOTS * head as usize;
    note_in_part(&mut slots[first..first + SLOTS], count, cell, word)
}

// Puts a word into a log that has room for it, over its head's part alone, and gives the new count.
fn put_in_part<W: Word>(part: &mut [Slot<W>], count: u8, cell: u32, word: W) -> u8
    requires size { length part.old ≡ SLOTS }
    requires few { count ≤ SLOTS }
    requires room { lacks_room_for cell (take count part.old) ≡ false }
    ensures part { part.new ≡ laid (put cell word (take count part.old)) part.old }
    ensures count { result ≡ length (put cell word (take count part.old)) }
{
    let mut log = LogMut::new(part, count);
    let _ = log.put(cell, word);
    log.len() as u8
}

// Puts a word into the log of a head, which has room for it, and gives the log's new count.
#[tactic(auto, using(crate::proofs::Noted::put_back))]
pub(crate) fn put_word<W: Word>(
    slots: &mut [Slot<W>],
    head: u32,
    count: u8,
    cell: u32,
    word: W,
) -> u8
    requires part { SLOTS * head + SLOTS ≤ length slots.old }
    requires few { count ≤ SLOTS }
    requires room { lacks_room_for cell (log_of head count slots.old) ≡ false }
    ensures slots { slots.new ≡ slots_with head (put cell word (log_of head count slots.old)) slots.old }
    ensures count { result ≡ length (put cell word (log_of head count slots.old)) }
{
    let first = SLOTS * head as usize;
    put_in_part(&mut slots[first..first + SLOTS], count, cell, word)
}
