// The handles of a transaction that has not closed, and its calls.
ghost use Rattle.std.specs.Prelude.{◌≡◌, IfOk};
ghost use Rattle.rules.specs.declared.types.Granted.TheVariants as granted;
ghost use Rattle.rules.specs.Answers.{answer_by};
ghost use Rattle.rules.specs.Refusals.{by_number};
ghost use Rattle.rules.specs.Calls.{outcome, open_of, jolt_of, drop_of, read_of, write_of, close_of, again_of};
ghost use Rattle.rig.specs.Rigs.{rig_bench, rig_bench_with, rig_kit, head_in, Kept};
ghost use Rattle.handles.specs.Handles.{running_caller, aborted_caller, next_number, IsNumbered};
ghost use Rattle.handles.specs.Handles.{after_open, after_again, after_close, or_given_back, exchange_of, why_not_exchanged};
ghost use Rattle.handles.specs.Answers.{closed_number, closed_value, AnswersAs};

use crate::commits::WritingBack;
use crate::refusals::Refused;
use crate::transaction::Transaction;
use parts::{Board, Mode, Policy, Word};
use rig::Rig;
use rules::{Caller, Closing, Lists, Refusal, Slot, State};

/// A transaction with an attempt under way, as far as its holder knows: another head may have aborted it.
#[derive(Debug, PartialEq, Eq, Drop)]
pub struct Running {
    pub(crate) transaction: Transaction,
}

/// A transaction whose latest attempt has aborted.
#[derive(Debug, PartialEq, Eq, Drop)]
pub struct Aborted {
    pub(crate) transaction: Transaction,
}

/// What a granted open or again gives: the handle, and how its attempt runs.
#[derive(Debug, PartialEq, Eq, Drop)]
pub struct Begun {
    pub handle: Running,
    pub mode: Mode,
}

/// A granted close, with the attempts of the transaction: done, or there is a handle for what is to be pushed.
#[derive(Debug, PartialEq, Eq, Drop)]
pub enum Closed {
    Complete(u32),
    WritingBack(WritingBack, u32),
}

impl Closed {
    /// The number that the close returns.
    pub fn number(&self) -> u8
        ensures { result ≡ closed_number self.now }
    {
        match self {
            Closed::Complete(_) => 0,
            Closed::WritingBack(..) => 1,
        }
    }

    /// The attempts that the transaction has made.
    pub fn value(&self) -> u32
        ensures { result ≡ closed_value self.now }
    {
        match self {
            Closed::Complete(attempts) | Closed::WritingBack(_, attempts) => *attempts,
        }
    }
}

impl Running {
    /// Begins a transaction of an idle head, in hardware. The handle has the next transaction number.
    pub fn open<B: Board, P: Policy, W: Word>(
        rig: &mut Rig<B, P>,
        head: u32,
        lists: Lists<'_, W>,
    ) -> Result<Begun, Refusal>
        ensures answer { let before = rig_bench_with rig.old lists.entry in
            result ≡ after_open head (next_number before) (open_of before (by_number head)).answer }
        ensures left { rig_bench_with rig.new lists.entry ≡ (open_of (rig_bench_with rig.old lists.entry) (by_number head)).left }
        ensures numbered { IfOk result (λ begun. IsNumbered (rig_bench_with rig.new lists.entry) (running_caller begun.handle)) }
        ensures kept { Kept rig.old rig.new (rig_bench_with rig.old lists.entry) (rig_bench_with rig.new lists.entry) }
    {
        let who = Caller {
            head,
            transaction: None,
        };
        let mode = rig.open(who, lists)?;
        let number = rig.head(head).ok_or(Refusal::NoHead)?.transaction;
        let transaction = Transaction { head, number };
        Ok(Begun {
            handle: Running { transaction },
            mode,
        })
    }

    /// Reads a cell: the word that the transaction has written there, or else the cell's.
    pub fn read<B: Board, P: Policy, W: Word>(
        &self,
        rig: &mut Rig<B, P>,
        cell: u32,
        cells: &[W],
        reads: &mut [Slot<W>],
        writes: &[Slot<W>],
    ) -> Result<W, Refusal>
        ensures outcome { let kit = rig_kit W.Word B.Board P.Policy rig.old in
            let before = rig_bench rig.old cells.now reads.old writes.now in
            outcome result (rig_bench rig.new cells.now reads.new writes.now) ≡ read_of kit.memory before (running_caller self.now) cell }
        ensures kept { Kept rig.old rig.new (rig_bench rig.old cells.now reads.old writes.now) (rig_bench rig.new cells.now reads.new writes.now) }
    {
        rig.read(self.transaction.caller(), cell, cells, reads, writes)
    }

    /// Writes a word to a cell, into the write log.
    pub fn write<B: Board, P: Policy, W: Word>(
        &self,
        rig: &mut Rig<B, P>,
        cell: u32,
        word: W,
        cells: &[W],
        reads: &[Slot<W>],
        writes: &mut [Slot<W>],
    ) -> Result<(), Refusal>
        ensures outcome { let kit = rig_kit W.Word B.Board P.Policy rig.old in
            let before = rig_bench rig.old cells.now reads.now writes.old in
            outcome result (rig_bench rig.new cells.now reads.now writes.new) ≡ write_of kit.memory before (running_caller self.now) cell word }
        ensures kept { Kept rig.old rig.new (rig_bench rig.old cells.now reads.now writes.old) (rig_bench rig.new cells.now reads.now writes.new) }
    {
        let who = self.transaction.caller();
        rig.write(who, cell, word, cells, reads, writes)
    }

    // What a close by this handle gives.
    fn after_close(self, answer: Result<Closing, Refusal>) -> Result<Closed, Refused<Running>>
        ensures { result ≡ after_close self answer }
    {
        match answer {
            Ok(Closing::Complete(attempts)) => Ok(Closed::Complete(attempts)),
            Ok(Closing::WritingBack(attempts)) => {
                let commit = WritingBack {
                    transaction: self.transaction,
                };
                Ok(Closed::WritingBack(commit, attempts))
            }
            Err(refusal) => Err(Refused {
                refusal,
                handle: self,
            }),
        }
    }

    /// Commits, and is used up by it. If the writes are still to be pushed, there is a handle for that.
    #[tactic(auto, using(crate::proofs::Told::close_told))]
    pub fn close<B: Board, P: Policy, W: Word>(
        self,
        rig: &mut Rig<B, P>,
        cells: &mut [W],
        reads: &[Slot<W>],
        writes: &[Slot<W>],
    ) -> Result<Closed, Refused<Running>>
        ensures answer { let kit = rig_kit W.Word B.Board P.Policy rig.old in
            let before = rig_bench rig.old cells.old reads.now writes.now in
            result ≡ after_close self (close_of kit.memory before (running_caller self)).answer }
        ensures left { let kit = rig_kit W.Word B.Board P.Policy rig.old in
            let before = rig_bench rig.old cells.old reads.now writes.now in
            rig_bench rig.new cells.new reads.now writes.now ≡ (close_of kit.memory before (running_caller self)).left }
        ensures told { let kit = rig_kit W.Word B.Board P.Policy rig.old in
            let before = rig_bench rig.old cells.old reads.now writes.now in
            AnswersAs closed_number closed_value result (answer_by {W = W} granted.Closed (close_of kit.memory before (running_caller self)).answer) }
        ensures kept { Kept rig.old rig.new (rig_bench rig.old cells.old reads.now writes.now) (rig_bench rig.new cells.new reads.now writes.now) }
    {
        let answer = rig.close(self.transaction.caller(), cells, reads, writes);
        self.after_close(answer)
    }

    /// Interrupts an attempt in hardware, which aborts it.
    pub fn jolt<B: Board, P: Policy, W: Word>(
        &self,
        rig: &mut Rig<B, P>,
        lists: Lists<'_, W>,
    ) -> Result<(), Refusal>
        ensures outcome { outcome result (rig_bench_with rig.new lists.entry)
            ≡ jolt_of (rig_bench_with rig.old lists.entry) (running_caller self.now) }
        ensures kept { Kept rig.old rig.new (rig_bench_with rig.old lists.entry) (rig_bench_with rig.new lists.entry) }
    {
        rig.jolt(self.transaction.caller(), lists)
    }

    /// Gives the transaction up, and is used up by it.
    pub fn drop<B: Board, P: Policy, W: Word>(
        self,
        rig: &mut Rig<B, P>,
        lists: Lists<'_, W>,
    ) -> Result<(), Refused<Running>>
        ensures answer { result ≡ or_given_back self (drop_of (rig_bench_with rig.old lists.entry) (running_caller self)).answer }
        ensures left { rig_bench_with rig.new lists.entry ≡ (drop_of (rig_bench_with rig.old lists.entry) (running_caller self)).left }
        ensures kept { Kept rig.old rig.new (rig_bench_with rig.old lists.entry) (rig_bench_with rig.new lists.entry) }
    {
        let answer = rig.drop(self.transaction.caller(), lists);
        answer.map_err(|refusal| Refused {
            refusal,
            handle: self,
        })
    }

    // Why the handle is not exchanged for an aborted one, if it is not.
    fn why_not_exchanged<B: Board, P: Policy>(&self, rig: &Rig<B, P>) -> Option<Refusal>
        ensures { let who = running_caller self.now in result ≡ why_not_exchanged who (head_in rig.now who.head) }
    {
        match rig.head(self.transaction.head) {
            None => Some(Refusal::NoHead),
            Some(head) if head.transaction != self.transaction.number => Some(Refusal::StaleHandle),
            Some(head) if !matches!(head.state, State::Aborted(_)) => Some(Refusal::NotTaken),
            Some(_) => None,
        }
    }

    /// Exchanges the handle for an aborted one, if its head has aborted.
    pub fn into_aborted<B: Board, P: Policy>(
        self,
        rig: &Rig<B, P>,
    ) -> Result<Aborted, Refused<Running>>
        ensures { result ≡ or_given_back self (exchange_of self (head_in rig.now (running_caller self).head)) }
    {
        match self.why_not_exchanged(rig) {
            Some(refusal) => Err(Refused {
                refusal,
                handle: self,
            }),
            None => Ok(Aborted {
                transaction: self.transaction,
            }),
        }
    }
}

impl Aborted {
    /// Tries the transaction again, for which there is a running handle again.
    pub fn again<B: Board, P: Policy, W: Word>(
        self,
        rig: &mut Rig<B, P>,
        lists: Lists<'_, W>,
    ) -> Result<Begun, Refused<Aborted>>
        ensures answer { let kit = rig_kit W.Word B.Board P.Policy rig.old in
            result ≡ after_again self (again_of kit.policy (rig_bench_with rig.old lists.entry) (aborted_caller self)).answer }
        ensures left { let kit = rig_kit W.Word B.Board P.Policy rig.old in
            rig_bench_with rig.new lists.entry ≡ (again_of kit.policy (rig_bench_with rig.old lists.entry) (aborted_caller self)).left }
        ensures kept { Kept rig.old rig.new (rig_bench_with rig.old lists.entry) (rig_bench_with rig.new lists.entry) }
    {
        match rig.again(self.transaction.caller(), lists) {
            Ok(mode) => {
                let transaction = self.transaction;
                Ok(Begun {
                    handle: Running { transaction },
                    mode,
                })
            }
            Err(refusal) => Err(Refused {
                refusal,
                handle: self,
            }),
        }
    }

    /// Gives the transaction up, and is used up by it.
    pub fn drop<B: Board, P: Policy, W: Word>(
        self,
        rig: &mut Rig<B, P>,
        lists: Lists<'_, W>,
    ) -> Result<(), Refused<Aborted>>
        ensures answer { result ≡ or_given_back self (drop_of (rig_bench_with rig.old lists.entry) (aborted_caller self)).answer }
        ensures left { rig_bench_with rig.new lists.entry ≡ (drop_of (rig_bench_with rig.old lists.entry) (aborted_caller self)).left }
        ensures kept { Kept rig.old rig.new (rig_bench_with rig.old lists.entry) (rig_bench_with rig.new lists.entry) }
    {
        let dropped = rig.drop(self.transaction.caller(), lists);
        dropped.map_err(|refusal| Refused {
            refusal,
            handle: self,
        })
    }
}
