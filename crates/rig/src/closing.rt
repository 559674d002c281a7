// The call that commits: close.
ghost use Rattle.std.specs.Prelude.{◌≡◌};
ghost use Rattle.parts.specs.declared.calls.Call.TheVariants as calls;
ghost use Rattle.rules.specs.Bench.{bench, bench_with};
ghost use Rattle.rules.specs.Bounds.{InBounds};
ghost use Rattle.rules.specs.Calls.{outcome, close_of, software_close};
ghost use Rattle.rig.specs.Admission.{Admits};
ghost use Rattle.rules.specs.Kit.{memory_of};

use crate::admission::{Admitted, Transition, admit};
use crate::heads::{abort, is_locked, present_snapshot};
use crate::sweeps::{Loads, abort_hit, lock_all_out};
use crate::validation::revalidate;
use logs::{Log, Validation};
use parts::{Board, Call, Cause, Mode, Word};
use rules::{Caller, Closing, Head, Lists, Refusal, Slot, State, Table};

// A software commit with writes: if what was read is still valid, it takes the sequence lock, and the head writes back.
fn close_in_software<B: Board, W: Word>(
    table: &mut Table,
    board: &B,
    who: Caller,
    me: Head,
    lists: Lists<'_, W>,
) -> Result<Closing, Refusal>
    requires bounds { InBounds table.old }
    requires admitted { Admits (bench_with table.old lists) who calls.Close me }
    ensures { outcome result (bench_with table.new lists.entry)
        ≡ software_close (memory_of W.Word B.Board board.now) (bench_with table.old lists.entry) who.head }
{
    match revalidate(table, who.head, lists) {
        Validation::Changed(log) => {
            let access = Loads { log, cell: None };
            abort_hit(&mut table.heads, who.head, board, &access, lists);
            table.heads[who.head as usize] = abort(me, Cause::Changed);
            Err(Refusal::Aborted(Cause::Changed))
        }
        Validation::Valid(log) => {
            let access = Loads { log, cell: None };
            abort_hit(&mut table.heads, who.head, board, &access, lists);
            lock_all_out(&mut table.heads);
            table.heads[who.head as usize] = Head {
                state: State::WritingBack,
                written: 0,
                snapshot: present_snapshot(table),
                ..me
            };
            table.sequence += 1;
            Ok(Closing::WritingBack(me.attempts))
        }
    }
}

// A hardware attempt puts its write log into the cells at once; a software one without writes is done.
pub(crate) fn close<B: Board, W: Word>(
    table: &mut Table,
    board: &B,
    who: Caller,
    cells: &mut [W],
    reads: &[Slot<W>],
    writes: &[Slot<W>],
) -> Result<Closing, Refusal>
    requires { InBounds table.old }
    ensures { outcome result (bench table.new cells.new reads.now writes.now)
        ≡ close_of (memory_of W.Word B.Board board.now) (bench table.old cells.old reads.now writes.now) who }
{
    let lists = Lists {
        cells,
        reads,
        writes,
    };
    let Admitted {
        head: me,
        transition,
    } = admit(table, who, Call::Close, lists)?;
    let Transition::Close { mode } = transition else {
        unreachable!();
    };
    let log = Log::of_head(writes, who.head, me.write_count);
    let done = Head {
        state: State::Idle,
        ..me
    };
    let told = Closing::Complete(me.attempts);
    match mode {
        Mode::Hardware => {
            log.put_into(cells);
            table.commits += 1;
            table.heads[who.head as usize] = done;
            Ok(told)
        }
        Mode::Software if log.is_empty() => {
            table.heads[who.head as usize] = done;
            Ok(told)
        }
        Mode::Software if is_locked(table) => Err(Refusal::Busy),
        Mode::Software => close_in_software(table, board, who, me, lists),
    }
}
