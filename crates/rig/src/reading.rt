// The call that reads.
ghost use Rattle.std.specs.Prelude.{None, if◌then◌else◌, ◌≡◌, ◌∷◌, ◌++◌, ◌<◌, ◌≤◌, false, length, Some};
ghost use Rattle.std.specs.List.{slice_get};
ghost use Rattle.parts.specs.declared.calls.Call.TheVariants as calls;
ghost use Rattle.rules.specs.Bench.{bench};
ghost use Rattle.rules.specs.Bounds.{InBounds};
ghost use Rattle.rules.specs.Calls.{outcome, read_of, hardware_read, software_read};
ghost use Rattle.rules.specs.Heads.{state_in};
ghost use Rattle.rules.specs.Logs.{lacks_room_for, lines_touched_with, log_of};
ghost use Rattle.rig.specs.Admission.{Admits};
ghost use Rattle.rules.specs.Kit.{memory_of};

use crate::admission::{Admitted, Transition, admit};
use crate::heads::{abort, must_wait, present_snapshot};
use crate::noting::note_word;
use crate::sweeps::{Loads, abort_hit};
use crate::validation::revalidate;
use logs::{Log, Validation, lines_touched_with};
use parts::{Board, Call, Cause, Mode, Word};
use rules::{Caller, Head, Lists, Refusal, Slot, Table};

// Whether the head's attempt fits with the cell's line touched too.
fn fits_with<B: Board, W: Word>(
    board: &B,
    head: u32,
    me: Head,
    cell: u32,
    lists: Lists<'_, W>,
) -> bool
    ensures { result
        ≡ B.Board.fits board.now me.stores (lines_touched_with (B.Board.line board.now) cell (log_of head me.read_count lists.entry.reads.now) (log_of head me.write_count lists.entry.writes.now)) }
{
    let read_log = Log::of_head(lists.reads, head, me.read_count);
    let write_log = Log::of_head(lists.writes, head, me.write_count);
    board.fits(
        me.stores,
        lines_touched_with(board, cell, &read_log, &write_log),
    )
}

// Reads the cell and notes its word; in hardware, if the attempt fits so.
fn read_in_hardware<B: Board, W: Word>(
    table: &mut Table,
    board: &B,
    who: Caller,
    me: Head,
    cell: u32,
    cells: &[W],
    reads: &mut [Slot<W>],
    writes: &[Slot<W>],
) -> Result<W, Refusal>
    requires bounds { InBounds table.old }
    requires admitted { Admits (bench table.old cells.now reads.old writes.now) who (calls.Read cell) me }
    requires room { lacks_room_for cell (log_of who.head me.read_count reads.old) ≡ false }
    ensures { (w : W) →
        slice_get cells.now cell ≡ Some w → outcome result (bench table.new cells.now reads.new writes.now)
        ≡ hardware_read (memory_of W.Word B.Board board.now) (bench table.old cells.now reads.old writes.now) who.head cell w }
{
    let lists = Lists {
        cells,
        reads,
        writes,
    };
    if !fits_with(board, who.head, me, cell, lists) {
        table.heads[who.head as usize] = abort(me, Cause::Capacity);
        return Err(Refusal::Aborted(Cause::Capacity));
    }
    let access = Loads {
        log: Log::of_head(reads, who.head, 0),
        cell: Some(cell),
    };
    abort_hit(&mut table.heads, who.head, board, &access, lists);
    let word = cells[cell as usize];
    let read_count = note_word(reads, who.head, me.read_count, cell, word);
    table.heads[who.head as usize] = Head { read_count, ..me };
    Ok(word)
}

// Reads the cell and notes its word; in software, if what was read before is still valid.
fn read_in_software<B: Board, W: Word>(
    table: &mut Table,
    board: &B,
    who: Caller,
    me: Head,
    cell: u32,
    cells: &[W],
    reads: &mut [Slot<W>],
    writes: &[Slot<W>],
) -> Result<W, Refusal>
    requires bounds { InBounds table.old }
    requires admitted { Admits (bench table.old cells.now reads.old writes.now) who (calls.Read cell) me }
    requires room { lacks_room_for cell (log_of who.head me.read_count reads.old) ≡ false }
    ensures { (w : W) →
        slice_get cells.now cell ≡ Some w → outcome result (bench table.new cells.now reads.new writes.now)
        ≡ software_read (memory_of W.Word B.Board board.now) (bench table.old cells.now reads.old writes.now) who.head cell w }
{
    let lists = Lists {
        cells,
        reads,
        writes,
    };
    // the cell is loaded if nothing that was read has changed
    let (log, to_load) = match revalidate(table, who.head, lists) {
        Validation::Valid(log) => (log, Some(cell)),
        Validation::Changed(log) => (log, None),
    };
    let access = Loads { log, cell: to_load };
    abort_hit(&mut table.heads, who.head, board, &access, lists);
    match to_load {
        None => {
            table.heads[who.head as usize] = abort(me, Cause::Changed);
            Err(Refusal::Aborted(Cause::Changed))
        }
        Some(_) => {
            let snapshot = present_snapshot(table);
            let word = cells[cell as usize];
            let read_count = note_word(reads, who.head, me.read_count, cell, word);
            table.heads[who.head as usize] = Head {
                read_count,
                snapshot,
                ..me
            };
            Ok(word)
        }
    }
}

// The word that the head's write log has for the cell, or else the cell's, for a head whose state takes the read.
fn read_admitted<B: Board, W: Word>(
    table: &mut Table,
    board: &B,
    who: Caller,
    me: Head,
    mode: Mode,
    cell: u32,
    cells: &[W],
    reads: &mut [Slot<W>],
    writes: &[Slot<W>],
) -> Result<W, Refusal>
    requires bounds { InBounds table.old }
    requires admitted { Admits (bench table.old cells.now reads.old writes.now) who (calls.Read cell) me }
    requires mode { me.state ≡ state_in mode }
    ensures { outcome result (bench table.new cells.now reads.new writes.now)
        ≡ read_of (memory_of W.Word B.Board board.now) (bench table.old cells.now reads.old writes.now) who cell }
{
    let write_log = Log::of_head(writes, who.head, me.write_count);
    if let Some(word) = write_log.word_for(cell) {
        return Ok(word);
    }
    if must_wait(table, mode) {
        return Err(Refusal::Busy);
    }
    let read_log = Log::of_head(reads, who.head, me.read_count);
    if read_log.lacks_room_for(cell) {
        return Err(Refusal::Full);
    }
    match mode {
        Mode::Hardware => read_in_hardware(table, board, who, me, cell, cells, reads, writes),
        Mode::Software => read_in_software(table, board, who, me, cell, cells, reads, writes),
    }
}

// Reads the cell.
pub(crate) fn read<B: Board, W: Word>(
    table: &mut Table,
    board: &B,
    who: Caller,
    cell: u32,
    cells: &[W],
    reads: &mut [Slot<W>],
    writes: &[Slot<W>],
) -> Result<W, Refusal>
    requires { InBounds table.old }
    ensures { outcome result (bench table.new cells.now reads.new writes.now)
        ≡ read_of (memory_of W.Word B.Board board.now) (bench table.old cells.now reads.old writes.now) who cell }
{
    let lists = Lists {
        cells,
        reads,
        writes,
    };
    let Admitted {
        head: me,
        transition,
    } = admit(table, who, Call::Read(cell), lists)?;
    let Transition::Read { mode, cell } = transition else {
        unreachable!();
    };
    read_admitted(table, board, who, me, mode, cell, cells, reads, writes)
}
