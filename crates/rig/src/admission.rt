// Which calls a head takes.
ghost use Rattle.std.specs.Prelude.{◌≡◌, ◌*◌, ◌≤◌, IfErr, IfOk, Ok, Some, length, true};
ghost use Rattle.rules.specs.Bench.{bench_with};
ghost use Rattle.parts.specs.declared.sizes.TheConstants.{MOST_HEADS};
ghost use Rattle.rules.specs.Bounds.{InBounds};
ghost use Rattle.rules.specs.Refusals.{is_beyond, is_stale, lengths_match, refusal};
ghost use Rattle.rig.specs.Admission.{Admits};
ghost use Rattle.rig.specs.Transitions.{Decides, Tells};

use parts::{Call, Cause, Mode, Word};
use rules::{Caller, Head, Lists, Refusal, SLOTS, State, Table};

// Whether the lists are as long as the cells, and as a log's slots for each head.
pub(crate) fn lengths_match<W: Word>(table: &Table, lists: Lists<'_, W>) -> bool
    requires { table.now.head_count ≤ MOST_HEADS }
    ensures answer { result ≡ lengths_match (bench_with table.now lists.entry) }
    ensures cells { result ≡ true → length lists.entry.cells.now ≡ table.now.cell_count }
    ensures reads { result ≡ true → length lists.entry.reads.now ≡ SLOTS * table.now.head_count }
    ensures writes { result ≡ true → length lists.entry.writes.now ≡ SLOTS * table.now.head_count }
{
    let slots = SLOTS * table.head_count as usize;
    lists.cells.len() == table.cell_count as usize
        && lists.reads.len() == slots
        && lists.writes.len() == slots
}

// What a call does, in a state that takes it.
#[derive(Clone, Copy)]
pub(crate) enum Transition<W> {
    Open,
    Read { mode: Mode, cell: u32 },
    Write { mode: Mode, cell: u32, word: W },
    Close { mode: Mode },
    Push,
    Jolt,
    Again { after: Cause },
    Drop,
}

// Whether a handle's transaction is not its head's.
fn is_stale(transaction: Option<u32>, head: Head) -> bool
    ensures { result ≡ is_stale transaction head }
{
    match transaction {
        Some(n) => n != head.transaction,
        None => false,
    }
}

// Whether the call names a cell beyond these.
fn is_beyond<W: Word>(cells: u32, call: Call<u32, W>) -> bool
    ensures { result ≡ is_beyond cells call }
{
    match call {
        Call::Read(cell) | Call::Write(cell, _) => cell >= cells,
        _ => false,
    }
}

// The head that calls, and what its call does.
#[derive(Clone, Copy)]
pub(crate) struct Admitted<W> {
    pub(crate) head: Head,
    pub(crate) transition: Transition<W>,
}

// The one match on a head's state and a call.
fn decide<W: Word>(state: State, call: Call<u32, W>) -> Result<Transition<W>, Refusal>
    ensures { Decides state call result }
{
    match (state, call) {
        (State::Idle, Call::Open) => Ok(Transition::Open),
        (State::Hardware, Call::Read(cell)) => Ok(Transition::Read {
            mode: Mode::Hardware,
            cell,
        }),
        (State::Software, Call::Read(cell)) => Ok(Transition::Read {
            mode: Mode::Software,
            cell,
        }),
        (State::Hardware, Call::Write(cell, word)) => Ok(Transition::Write {
            mode: Mode::Hardware,
            cell,
            word,
        }),
        (State::Software, Call::Write(cell, word)) => Ok(Transition::Write {
            mode: Mode::Software,
            cell,
            word,
        }),
        (State::Hardware, Call::Close) => Ok(Transition::Close {
            mode: Mode::Hardware,
        }),
        (State::Software, Call::Close) => Ok(Transition::Close {
            mode: Mode::Software,
        }),
        (State::WritingBack, Call::Push) => Ok(Transition::Push),
        (State::Hardware, Call::Jolt) => Ok(Transition::Jolt),
        (State::Aborted(after), Call::Again) => Ok(Transition::Again { after }),
        (State::Hardware | State::Software | State::Aborted(_), Call::Drop) => Ok(Transition::Drop),
        (State::Aborted(cause), Call::Read(_) | Call::Write(..) | Call::Close) => {
            Err(Refusal::Aborted(cause))
        }
        _ => Err(Refusal::NotTaken),
    }
}

// The head that calls, and what the call does, unless a list has a wrong length, there is no such head or cell, the handle
// is stale, or the head's state does not take the call.
#[inline(always)]
pub(crate) fn admit<W: Word>(
    table: &Table,
    who: Caller,
    call: Call<u32, W>,
    lists: Lists<'_, W>,
) -> Result<Admitted<W>, Refusal>
    requires { InBounds table.now }
    ensures refused { IfErr result (λ e. refusal (bench_with table.now lists.entry) who call ≡ Some e) }
    ensures known { IfOk result (λ a. Admits (bench_with table.now lists.entry) who call a.head) }
    ensures transition { IfOk result (λ a. Tells a.head.state call a.transition) }
{
    if !lengths_match(table, lists) {
        return Err(Refusal::Lists);
    }
    if who.head >= table.head_count {
        return Err(Refusal::NoHead);
    }
    let head = table.heads[who.head as usize];
    if is_stale(who.transaction, head) {
        return Err(Refusal::StaleHandle);
    }
    if is_beyond(table.cell_count, call) {
        return Err(Refusal::NoCell);
    }
    match decide(head.state, call) {
        Ok(transition) => Ok(Admitted { head, transition }),
        Err(refusal) => Err(refusal),
    }
}
