// The rig and its public calls.
ghost use Rattle.std.specs.Prelude.{◌≡◌};
ghost use Rattle.rules.specs.Bounds.{InBounds};
ghost use Rattle.rules.specs.Refusals.{lengths_match};
ghost use Rattle.rules.specs.Calls.{outcome, open_of, push_of, jolt_of, drop_of};
ghost use Rattle.rules.specs.Calls.{read_of, write_of, close_of, again_of};

use crate::admission::lengths_match;
use crate::closing::close;
use crate::reading::read;
use crate::simple::{again, cancel, jolt, open};
use crate::write_back::push;
use crate::writing::write;
use parts::{Board, Mode, Policy, Size, Word};
use rules::{Caller, Closing, Head, Lists, RECORDS, Refusal, Slot, Snapshot, State, Table};

/// A rig: a board, a policy, and a table that is always in bounds, so that no number it counts runs over.
#[derive(Drop)]
pub struct Rig<B, P> {
    board: B,
    policy: P,
    table: Table,
    ghost in_bounds: { InBounds table },
}

impl<B: Board, P: Policy> Rig<B, P> {
    ghost use Rattle.rig.specs.Rigs.{rig_bench, rig_bench_with, rig_kit, head_in, Kept, IsNew, SetUpAs};

    /// A rig of this size: its heads are idle, and every number is 0.
    pub fn new(size: Size, board: B, policy: P) -> Rig<B, P>
        ensures { IsNew size.heads size.cells board policy result }
    {
        let head = Head {
            state: State::Idle,
            transaction: 0,
            attempts: 0,
            hardware_aborts: 0,
            stores: 0,
            read_count: 0,
            write_count: 0,
            written: 0,
            snapshot: Snapshot {
                sequence: 0,
                commits: 0,
            },
        };
        let table = Table {
            heads: [head; RECORDS],
            head_count: size.heads,
            cell_count: size.cells,
            sequence: 0,
            commits: 0,
            opened: 0,
        };
        Rig {
            board,
            policy,
            table,
        }
    }

    /// A rig of so many heads and cells, or `OutOfRange` (11) where no rig has so many.
    pub fn set_up(heads: u32, cells: u32, board: B, policy: P) -> Result<Rig<B, P>, Refusal>
    where
        B: Drop,
        P: Drop,
        ensures { SetUpAs heads cells board policy result }
    {
        match Size::new(heads, cells) {
            Some(size) => Ok(Rig::new(size, board, policy)),
            None => Err(Refusal::OutOfRange),
        }
    }

    /// What the rig keeps of a head, if there is such a head.
    pub fn head(&self, head: u32) -> Option<Head>
        ensures { result ≡ head_in self.now head }
    {
        if head < self.table.head_count {
            Some(self.table.heads[head as usize])
        } else {
            None
        }
    }

    /// Whether the lists have the right lengths: with others every call is refused.
    pub fn lists_match<W: Word>(&self, lists: Lists<'_, W>) -> bool
        ensures { result ≡ lengths_match (rig_bench_with self.now lists.entry) }
    {
        lengths_match(&self.table, lists)
    }

    /// Begins a transaction of an idle head, in hardware.
    pub fn open<W: Word>(&mut self, who: Caller, lists: Lists<'_, W>) -> Result<Mode, Refusal>
        ensures outcome { outcome result (rig_bench_with self.new lists.entry)
            ≡ open_of (rig_bench_with self.old lists.entry) who }
        ensures kept { Kept self.old self.new (rig_bench_with self.old lists.entry) (rig_bench_with self.new lists.entry) }
    {
        open(&mut self.table, who, lists)
    }

    /// Reads a cell: the word that the transaction has written there, or else the cell's.
    pub fn read<W: Word>(
        &mut self,
        who: Caller,
        cell: u32,
        cells: &[W],
        reads: &mut [Slot<W>],
        writes: &[Slot<W>],
    ) -> Result<W, Refusal>
        ensures outcome { let kit = rig_kit W.Word B.Board P.Policy self.old in
            let before = rig_bench self.old cells.now reads.old writes.now in
            outcome result (rig_bench self.new cells.now reads.new writes.now) ≡ read_of kit.memory before who cell }
        ensures kept { Kept self.old self.new (rig_bench self.old cells.now reads.old writes.now) (rig_bench self.new cells.now reads.new writes.now) }
    {
        read(
            &mut self.table,
            &self.board,
            who,
            cell,
            cells,
            reads,
            writes,
        )
    }

    /// Writes a word to a cell, into the write log.
    pub fn write<W: Word>(
        &mut self,
        who: Caller,
        cell: u32,
        word: W,
        cells: &[W],
        reads: &[Slot<W>],
        writes: &mut [Slot<W>],
    ) -> Result<(), Refusal>
        ensures outcome { let kit = rig_kit W.Word B.Board P.Policy self.old in
            let before = rig_bench self.old cells.now reads.now writes.old in
            outcome result (rig_bench self.new cells.now reads.now writes.new) ≡ write_of kit.memory before who cell word }
        ensures kept { Kept self.old self.new (rig_bench self.old cells.now reads.now writes.old) (rig_bench self.new cells.now reads.now writes.new) }
    {
        write(
            &mut self.table,
            &self.board,
            who,
            cell,
            word,
            cells,
            reads,
            writes,
        )
    }

    /// Commits: the writes are in the cells at once, or are to be pushed.
    pub fn close<W: Word>(
        &mut self,
        who: Caller,
        cells: &mut [W],
        reads: &[Slot<W>],
        writes: &[Slot<W>],
    ) -> Result<Closing, Refusal>
        ensures outcome { let kit = rig_kit W.Word B.Board P.Policy self.old in
            let before = rig_bench self.old cells.old reads.now writes.now in
            outcome result (rig_bench self.new cells.new reads.now writes.now) ≡ close_of kit.memory before who }
        ensures kept { Kept self.old self.new (rig_bench self.old cells.old reads.now writes.now) (rig_bench self.new cells.new reads.now writes.now) }
    {
        close(&mut self.table, &self.board, who, cells, reads, writes)
    }

    /// Writes back the next slot of the write log, and gives the number of those that are left.
    pub fn push<W: Word>(
        &mut self,
        who: Caller,
        cells: &mut [W],
        reads: &[Slot<W>],
        writes: &[Slot<W>],
    ) -> Result<u8, Refusal>
        ensures outcome { outcome result (rig_bench self.new cells.new reads.now writes.now)
            ≡ push_of (rig_bench self.old cells.old reads.now writes.now) who }
        ensures kept { Kept self.old self.new (rig_bench self.old cells.old reads.now writes.now) (rig_bench self.new cells.new reads.now writes.now) }
    {
        push(&mut self.table, who, cells, reads, writes)
    }

    /// Interrupts an attempt in hardware, which aborts it.
    pub fn jolt<W: Word>(&mut self, who: Caller, lists: Lists<'_, W>) -> Result<(), Refusal>
        ensures outcome { outcome result (rig_bench_with self.new lists.entry)
            ≡ jolt_of (rig_bench_with self.old lists.entry) who }
        ensures kept { Kept self.old self.new (rig_bench_with self.old lists.entry) (rig_bench_with self.new lists.entry) }
    {
        jolt(&mut self.table, who, lists)
    }

    /// Tries an aborted transaction again.
    pub fn again<W: Word>(&mut self, who: Caller, lists: Lists<'_, W>) -> Result<Mode, Refusal>
        ensures outcome { let kit = rig_kit W.Word B.Board P.Policy self.old in
            let before = rig_bench_with self.old lists.entry in
            outcome result (rig_bench_with self.new lists.entry) ≡ again_of kit.policy before who }
        ensures kept { Kept self.old self.new (rig_bench_with self.old lists.entry) (rig_bench_with self.new lists.entry) }
    {
        again(&mut self.table, &self.policy, who, lists)
    }

    /// Gives a transaction up.
    pub fn drop<W: Word>(&mut self, who: Caller, lists: Lists<'_, W>) -> Result<(), Refusal>
        ensures outcome { outcome result (rig_bench_with self.new lists.entry)
            ≡ drop_of (rig_bench_with self.old lists.entry) who }
        ensures kept { Kept self.old self.new (rig_bench_with self.old lists.entry) (rig_bench_with self.new lists.entry) }
    {
        cancel(&mut self.table, who, lists)
    }
}
