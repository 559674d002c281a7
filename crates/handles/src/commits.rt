// The handle of a commit that writes back, and its calls.
ghost use Rattle.std.specs.Prelude.{IfErr, IfOk, None, Some, true, ◌≡◌};
ghost use Rattle.rules.specs.declared.types.Granted.TheVariants as granted;
ghost use Rattle.rules.specs.Answers.{answer_by};
ghost use Rattle.rules.specs.Refusals.{lengths_match};
ghost use Rattle.rules.specs.Calls.{push_of};
ghost use Rattle.rig.specs.Rigs.{rig_bench, Kept};
ghost use Rattle.handles.specs.Handles.{writing_back_caller, after_push, after_pushes, pushes_of, not_pushed, WrittenBack};
ghost use Rattle.handles.specs.Answers.{pushed_number, pushed_value, AnswersAs};

use crate::refusals::Refused;
use crate::transaction::Transaction;
use parts::{Board, Policy, Word};
use rig::Rig;
use rules::{Refusal, Slot};

/// A software commit that is putting its writes into the cells. While it does, others wait with 7, so its handle must not be
/// forgotten: it is pushed until no slot is left.
#[derive(Debug, PartialEq, Eq)]
pub struct WritingBack {
    pub(crate) transaction: Transaction,
}

impl Drop for WritingBack {
    // Transactions are numbered from 1, so nobody can show this of a handle: no program that lets one go is proved.
    fn drop(self)
        requires of_no_transaction { (writing_back_caller self).transaction ≡ Some 0 }
    {
        let WritingBack { transaction: _ } = self;
    }
}

/// A granted push: no slot is left, or so many are.
#[derive(Debug, PartialEq, Eq, Drop)]
pub enum Pushed {
    Done,
    Left(WritingBack, u8),
}

impl Pushed {
    /// The number that the push returns: 0, as every granted call but a close whose writes are still to be pushed.
    pub fn number(&self) -> u8
        ensures { result ≡ pushed_number self.now }
    {
        match self {
            Pushed::Done | Pushed::Left(..) => 0,
        }
    }

    /// The slots that are left to push.
    pub fn value(&self) -> u8
        ensures { result ≡ pushed_value self.now }
    {
        match self {
            Pushed::Done => 0,
            Pushed::Left(_, slots) => *slots,
        }
    }
}

impl WritingBack {
    // Why a push is refused, and the handle, unless its head does not write back for it.
    fn not_pushed(self, refusal: Refusal) -> Refused<Option<WritingBack>>
        ensures { result ≡ not_pushed self refusal }
    {
        let handle = match refusal {
            Refusal::NoHead | Refusal::NotTaken | Refusal::StaleHandle => {
                let WritingBack { transaction: _ } = self;
                None
            }
            _ => Some(self),
        };
        Refused { refusal, handle }
    }

    /// Writes back the next slot of the write log. The push that leaves no slot uses the handle up.
    #[tactic(auto, using(crate::proofs::UsedUp::used_up_by_push, crate::proofs::Told::push_told))]
    pub fn push<B: Board, P: Policy, W: Word>(
        self,
        rig: &mut Rig<B, P>,
        cells: &mut [W],
        reads: &[Slot<W>],
        writes: &[Slot<W>],
    ) -> Result<Pushed, Refused<Option<WritingBack>>>
        ensures answer { let before = rig_bench rig.old cells.old reads.now writes.now in
            result ≡ after_push self (push_of before (writing_back_caller self)).answer }
        ensures left { let before = rig_bench rig.old cells.old reads.now writes.now in
            rig_bench rig.new cells.new reads.now writes.now ≡ (push_of before (writing_back_caller self)).left }
        ensures told { let before = rig_bench rig.old cells.old reads.now writes.now in
            AnswersAs pushed_number pushed_value result (answer_by {W = W} granted.SlotsLeft (push_of before (writing_back_caller self)).answer) }
        ensures used_up { lengths_match (rig_bench rig.old cells.old reads.now writes.now) ≡ true
            → IfErr result (λ r. r.handle ≡ None) }
        ensures kept { Kept rig.old rig.new (rig_bench rig.old cells.old reads.now writes.now) (rig_bench rig.new cells.new reads.now writes.now) }
    {
        match rig.push(self.transaction.caller(), cells, reads, writes) {
            Ok(0) => {
                let WritingBack { transaction: _ } = self;
                Ok(Pushed::Done)
            }
            Ok(left) => Ok(Pushed::Left(self, left)),
            Err(refusal) => Err(self.not_pushed(refusal)),
        }
    }

    /// Pushes until no slot is left, and gives the number of pushes. If the first is not refused, none is.
    #[tactic(auto, using(crate::proofs::Pushing::going_first))]
    pub fn push_all<B: Board, P: Policy, W: Word>(
        self,
        rig: &mut Rig<B, P>,
        cells: &mut [W],
        reads: &[Slot<W>],
        writes: &[Slot<W>],
    ) -> Result<u8, Refused<Option<WritingBack>>>
        ensures answer { let before = rig_bench rig.old cells.old reads.now writes.now in
            result ≡ after_pushes self (push_of before (writing_back_caller self)).answer }
        ensures left { let before = rig_bench rig.old cells.old reads.now writes.now in
            rig_bench rig.new cells.new reads.now writes.now ≡ pushes_of before (writing_back_caller self) }
        ensures written_back { let before = rig_bench rig.old cells.old reads.now writes.now in
            IfOk result (λ _. WrittenBack before (rig_bench rig.new cells.new reads.now writes.now) (writing_back_caller self).head) }
        ensures used_up { lengths_match (rig_bench rig.old cells.old reads.now writes.now) ≡ true
            → IfErr result (λ r. r.handle ≡ None) }
        ensures kept { Kept rig.old rig.new (rig_bench rig.old cells.old reads.now writes.now) (rig_bench rig.new cells.new reads.now writes.now) }
    {
        let mut handle = self;
        let mut pushed = 1;
        while let Pushed::Left(next, _) = handle.push(rig, cells, reads, writes)? {
            handle = next;
            pushed += 1;
        }
        Ok(pushed)
    }
}
