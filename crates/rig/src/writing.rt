// The call that writes.
ghost use Rattle.std.specs.Prelude.{◌≡◌, ◌++◌, ◌<◌, ◌≤◌, All, List, length};
ghost use Rattle.rules.specs.Bench.{bench, bench_with};
ghost use Rattle.rules.specs.Bounds.{HeadBounds, InBounds};
ghost use Rattle.rules.specs.Calls.{outcome, write_of};
ghost use Rattle.rules.specs.Heads.{state_in, stores_after};
ghost use Rattle.rules.specs.Logs.{lines_touched, log_of};
ghost use Rattle.rules.specs.Kit.{memory_of};
ghost use Rattle.parts.specs.declared.sizes.TheConstants.{MOST_HEADS};
ghost use Rattle.parts.specs.declared.calls.Call.TheVariants as calls;
ghost use Rattle.rig.specs.Admission.{Admits};
ghost use Rattle.rig.specs.Stores.{stored};

use crate::admission::{Admitted, Transition, admit};
use crate::heads::abort;
use crate::noting::put_word;
use crate::sweeps::{Store, abort_hit};
use logs::{Log, lines_touched};
use parts::{Board, Call, Cause, Mode, Word};
use rules::{Caller, Head, Lists, Refusal, Slot, Table};

// The head with so many slots in its write log; a hardware attempt counts a store.
fn with_write(head: Head, mode: Mode, write_count: u8) -> Head
    ensures { result ≡ record head { stores = stores_after (state_in mode) head.stores; write_count = write_count } }
{
    let stores = match mode {
        Mode::Hardware => head.stores.saturating_add(1),
        Mode::Software => head.stores,
    };
    Head {
        stores,
        write_count,
        ..head
    }
}

// Whether the head's attempt fits as it is.
fn fits<B: Board, W: Word>(board: &B, head: u32, me: Head, lists: Lists<'_, W>) -> bool
    ensures { result
        ≡ B.Board.fits board.now me.stores (lines_touched (B.Board.line board.now) (log_of head me.read_count lists.entry.reads.now) (log_of head me.write_count lists.entry.writes.now)) }
{
    let read_log = Log::of_head(lists.reads, head, me.read_count);
    let write_log = Log::of_head(lists.writes, head, me.write_count);
    board.fits(me.stores, lines_touched(board, &read_log, &write_log))
}

// A hardware store to the cell, whose word is in the head's write log already: if the attempt fits, every other head
// in hardware that has a cell of that line aborts.
fn store<B: Board, W: Word>(
    table: &mut Table,
    board: &B,
    head: u32,
    me: Head,
    cell: u32,
    lists: Lists<'_, W>,
) -> Result<(), Refusal>
    requires head { head < MOST_HEADS }
    requires own { HeadBounds me }
    requires others { All HeadBounds table.old.heads }
    ensures { outcome result (bench_with table.new lists.entry)
        ≡ stored (memory_of W.Word B.Board board.now) (bench_with table.old lists.entry) head me cell }
{
    if !fits(board, head, me, lists) {
        table.heads[head as usize] = abort(me, Cause::Capacity);
        return Err(Refusal::Aborted(Cause::Capacity));
    }
    abort_hit(&mut table.heads, head, board, &Store { cell }, lists);
    table.heads[head as usize] = me;
    Ok(())
}

// Replaces the cell's word in the head's write log, or adds it, for a head whose state takes the write.
fn write_admitted<B: Board, W: Word>(
    table: &mut Table,
    board: &B,
    who: Caller,
    me: Head,
    mode: Mode,
    slot: Slot<W>,
    cells: &[W],
    reads: &[Slot<W>],
    writes: &mut [Slot<W>],
) -> Result<(), Refusal>
    requires bounds { InBounds table.old }
    requires admitted { Admits (bench table.old cells.now reads.now writes.old) who (calls.Write slot.cell slot.word) me }
    requires mode { me.state ≡ state_in mode }
    ensures { outcome result (bench table.new cells.now reads.now writes.new)
        ≡ write_of (memory_of W.Word B.Board board.now) (bench table.old cells.now reads.now writes.old) who slot.cell slot.word }
{
    let Slot { cell, word } = slot;
    let log = Log::of_head(writes, who.head, me.write_count);
    match log.word_for(cell) {
        // its slot is replaced
        Some(_) => {}
        None if log.is_full() => return Err(Refusal::Full),
        // a slot is added
        None => {}
    }
    let write_count = put_word(writes, who.head, me.write_count, cell, word);
    let me = with_write(me, mode, write_count);
    match mode {
        Mode::Hardware => {
            let lists = Lists {
                cells,
                reads,
                writes,
            };
            store(table, board, who.head, me, cell, lists)
        }
        Mode::Software => {
            table.heads[who.head as usize] = me;
            Ok(())
        }
    }
}

// Writes the word to the cell, in the write log.
pub(crate) fn write<B: Board, W: Word>(
    table: &mut Table,
    board: &B,
    who: Caller,
    cell: u32,
    word: W,
    cells: &[W],
    reads: &[Slot<W>],
    writes: &mut [Slot<W>],
) -> Result<(), Refusal>
    requires { InBounds table.old }
    ensures { outcome result (bench table.new cells.now reads.now writes.new)
        ≡ write_of (memory_of W.Word B.Board board.now) (bench table.old cells.now reads.now writes.old) who cell word }
{
    let lists = Lists {
        cells,
        reads,
        writes,
    };
    let Admitted {
        head: me,
        transition,
    } = admit(table, who, Call::Write(cell, word), lists)?;
    let Transition::Write { mode, cell, word } = transition else {
        unreachable!();
    };
    let slot = Slot { cell, word };
    write_admitted(table, board, who, me, mode, slot, cells, reads, writes)
}
