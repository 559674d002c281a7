// One call of a list, whichever it is.
ghost use Rattle.std.specs.Prelude.{◌≡◌, Err};
ghost use Rattle.rules.specs.declared.types.Refusal.TheVariants as refuse;
ghost use Rattle.rules.specs.Answers.{Answer as Answers, call_of};
ghost use Rattle.rules.specs.Bench.{Bench};
ghost use Rattle.rules.specs.Runs.{step};
ghost use Rattle.rig.specs.Rigs.{rig_bench, rig_kit, Kept};

use crate::types::Answer;
use parts::{Board, Call, Policy, Word};
use rig::Rig;
use rules::{Caller, Granted, LentLists, Lists, MadeCall, Slot};

// Makes one of the eight calls, and answers it as all calls are answered.
fn carry_out<B: Board, P: Policy, W: Word>(
    rig: &mut Rig<B, P>,
    who: Caller,
    call: Call<u32, W>,
    cells: &mut [W],
    reads: &mut [Slot<W>],
    writes: &mut [Slot<W>],
) -> Answer<W>
    ensures outcome { let kit = rig_kit W.Word B.Board P.Policy rig.old in
        let before = rig_bench rig.old cells.old reads.old writes.old in
        ◌≡◌ {A = Answers W × Bench W} (result, rig_bench rig.new cells.new reads.new writes.new) (call_of kit before who call) }
    ensures kept { Kept rig.old rig.new (rig_bench rig.old cells.old reads.old writes.old) (rig_bench rig.new cells.new reads.new writes.new) }
{
    let lists = Lists {
        cells,
        reads,
        writes,
    };
    Ok(match call {
        Call::Open => Granted::Begun(rig.open(who, lists)?),
        Call::Read(cell) => Granted::Word(rig.read(who, cell, cells, reads, writes)?),
        Call::Write(cell, word) => {
            rig.write(who, cell, word, cells, reads, writes)?;
            Granted::Done
        }
        Call::Close => Granted::Closed(rig.close(who, cells, reads, writes)?),
        Call::Push => Granted::SlotsLeft(rig.push(who, cells, reads, writes)?),
        Call::Jolt => {
            rig.jolt(who, lists)?;
            Granted::Done
        }
        Call::Again => Granted::Begun(rig.again(who, lists)?),
        Call::Drop => {
            rig.drop(who, lists)?;
            Granted::Done
        }
    })
}

// The same with empty lists, which are too short for any rig.
fn carry_out_without_lists<B: Board, P: Policy, W: Word>(
    rig: &mut Rig<B, P>,
    who: Caller,
    call: Call<u32, W>,
) -> Answer<W>
    ensures answer { result ≡ Err refuse.Lists }
    ensures kept { rig.new ≡ rig.old }
{
    let mut cells: [W; 0] = [];
    let mut reads: [Slot<W>; 0] = [];
    let mut writes: [Slot<W>; 0] = [];
    carry_out(rig, who, call, &mut cells, &mut reads, &mut writes)
}

/// Makes a call as it is handed over: with the lists, or with lists of wrong length, which no rig has.
pub fn make<B: Board, P: Policy, W: Word>(
    rig: &mut Rig<B, P>,
    call: MadeCall<W>,
    cells: &mut [W],
    reads: &mut [Slot<W>],
    writes: &mut [Slot<W>],
) -> Answer<W>
    ensures outcome { let kit = rig_kit W.Word B.Board P.Policy rig.old in
        let before = rig_bench rig.old cells.old reads.old writes.old in
        ◌≡◌ {A = Answers W × Bench W} (result, rig_bench rig.new cells.new reads.new writes.new) (step kit before call) }
    ensures kept { Kept rig.old rig.new (rig_bench rig.old cells.old reads.old writes.old) (rig_bench rig.new cells.new reads.new writes.new) }
{
    match call.lent {
        LentLists::Right => carry_out(rig, call.caller, call.call, cells, reads, writes),
        LentLists::Wrong => carry_out_without_lists(rig, call.caller, call.call),
    }
}
