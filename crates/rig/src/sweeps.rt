// What an access of one head does to the others.
ghost use Rattle.std.specs.Prelude.{◌≡◌, ℕ, ◌++◌, ◌∷◌, [], Bool, not, ◌&&◌, ◌==◌, List, map, length, All};
ghost use Rattle.rules.specs.declared.types.Head.{Head as HeadRecord};
ghost use Rattle.rules.specs.declared.types.Slot.{Slot as SlotRecord};
ghost use Rattle.rules.specs.declared.types.Table.{Table as TableRecord};
ghost use Rattle.rules.specs.Bench.{hit_by_loads, hit_by_store, bench_with, map_at, abort_if_hit, lock_out};
ghost use Rattle.rules.specs.Bounds.{HeadBounds};
ghost use Rattle.rules.specs.Heads.{is_hardware};
ghost use Rattle.rules.specs.Logs.{log_of};
ghost use Rattle.rig.specs.Accesses.{cells_of};

use crate::heads::{abort, is_hardware};
use logs::Log;
use parts::{Board, Cause, MOST_HEADS, Word};
use rules::{Head, Lists, RECORDS, State};

// An access to memory: which logs of another head in hardware it runs into.
pub(crate) trait Access<W: Word> {
    ghost hits: { Self → (ℕ → ℕ) → List (SlotRecord W) → List (SlotRecord W) → Bool };

    fn hits<B: Board>(&self, board: &B, reads: &Log<'_, W>, writes: &Log<'_, W>) -> bool
        ensures { result ≡ hits self.now (B.Board.line board.now) reads.now writes.now };
}

// Loads of cells: those of a log, and perhaps one more.
#[derive(Drop)]
pub(crate) struct Loads<'a, W> {
    pub(crate) log: Log<'a, W>,
    pub(crate) cell: Option<u32>,
}

impl<W: Word> Access<W> for Loads<'_, W> {
    ghost hits = { λ a line reads writes. hit_by_loads line (cells_of a.log a.cell) reads writes };

    #[tactic(auto, using(crate::proofs::Hits::log_hits, crate::proofs::Hits::cell_hits, crate::proofs::Hits::none_hits))]
    fn hits<B: Board>(&self, board: &B, _reads: &Log<'_, W>, writes: &Log<'_, W>) -> bool {
        if self.log.shares_line(board, writes) {
            return true;
        }
        match self.cell {
            Some(cell) => writes.touches(board, board.line(cell)),
            None => false,
        }
    }
}

// A hardware store to a cell.
#[derive(Drop)]
pub(crate) struct Store {
    pub(crate) cell: u32,
}

impl<W: Word> Access<W> for Store {
    ghost hits = { λ a line reads writes. hit_by_store line a.cell reads writes };

    fn hits<B: Board>(&self, board: &B, reads: &Log<'_, W>, writes: &Log<'_, W>) -> bool {
        let line = board.line(self.cell);
        reads.touches(board, line) || writes.touches(board, line)
    }
}

// Whether an access of the head `me` makes the head `other` abort: in hardware it does, if its logs are hit.
fn is_hit<A: Access<W>, B: Board, W: Word>(
    head: &Head,
    other: u32,
    me: u32,
    board: &B,
    access: &A,
    lists: Lists<'_, W>,
) -> bool
    ensures { result
        ≡ (not (other == me) && (is_hardware head.now.state && A.Access.hits access.now (B.Board.line board.now) (log_of other head.now.read_count lists.entry.reads.now) (log_of other head.now.write_count lists.entry.writes.now))) }
{
    if other == me || !is_hardware(*head) {
        return false;
    }
    let reads = Log::of_head(lists.reads, other, head.read_count);
    let writes = Log::of_head(lists.writes, other, head.write_count);
    access.hits(board, &reads, &writes)
}

// Every other head in hardware whose logs the access hits aborts by conflict.
pub(crate) fn abort_hit<A: Access<W>, B: Board, W: Word>(
    heads: &mut [Head; RECORDS],
    me: u32,
    board: &B,
    access: &A,
    lists: Lists<'_, W>,
)
    requires { All HeadBounds heads.old }
    ensures bounds { All HeadBounds heads.new }
    ensures heads { (t : TableRecord) →
        heads.new
        ≡ map_at (abort_if_hit (bench_with t lists.entry) me (A.Access.hits access.now (B.Board.line board.now))) 0 heads.old }
{
    for k in 0..MOST_HEADS {
        let at = k as usize;
        if is_hit(&heads[at], k, me, board, access, lists) {
            heads[at] = abort(heads[at], Cause::Conflict);
        }
    }
}

// The head once the sequence lock is taken: in hardware it aborts.
fn lock_out(head: Head) -> Head
    requires { HeadBounds head }
    ensures { result ≡ lock_out head }
{
    match head.state {
        State::Hardware => abort(head, Cause::Lock),
        _ => head,
    }
}

// The sequence lock is taken: every head in hardware aborts.
pub(crate) fn lock_all_out(heads: &mut [Head; RECORDS])
    requires { All HeadBounds heads.old }
    ensures { heads.new ≡ map lock_out heads.old }
{
    for k in 0..RECORDS {
        heads[k] = lock_out(heads[k]);
    }
}
