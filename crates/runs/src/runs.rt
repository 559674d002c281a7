// Whole runs.
ghost use Rattle.std.specs.Prelude.{◌≡◌, IfOk, OnErr, drop, length, min, take, vec_capacity, vec_items, vec_len};
ghost use Rattle.rules.specs.Bench.{bench};
ghost use Rattle.rules.specs.Calls.{new_table};
ghost use Rattle.rules.specs.Kit.{kit_of};
ghost use Rattle.rules.specs.Runs.{answers_of, left_by};
ghost use Rattle.rig.specs.Rigs.{rig_bench, rig_kit, IsOver, Kept};
ghost use Rattle.runs.specs.Ran.{Ran};

use crate::calls::make;
use crate::types::{Answer, Calls, Run, RunWith, SetUp};
use parts::{Board, Policy, Word};
use rig::Rig;
use rules::{Refusal, Slot};
use std::alloc::{AllocError, Global};

// Makes the calls in their order, as many as there is room for their answers, and tells how many.
fn make_all<B: Board, P: Policy, W: Word, C: Calls<W> + Drop>(
    rig: &mut Rig<B, P>,
    calls: C,
    cells: &mut [W],
    reads: &mut [Slot<W>],
    writes: &mut [Slot<W>],
    answers: &mut [Answer<W>],
) -> usize
    ensures count { result ≡ min (length (C.Calls.made calls)) (length answers.old) }
    ensures answers { let kit = rig_kit W.Word B.Board P.Policy rig.old in
        let before = rig_bench rig.old cells.old reads.old writes.old in
        take result answers.new ≡ answers_of kit before (take result (C.Calls.made calls)) }
    ensures left { let kit = rig_kit W.Word B.Board P.Policy rig.old in
        let before = rig_bench rig.old cells.old reads.old writes.old in
        rig_bench rig.new cells.new reads.new writes.new ≡ left_by kit before (take result (C.Calls.made calls)) }
    ensures rest { drop result answers.new ≡ drop result answers.old }
    ensures kept { Kept rig.old rig.new (rig_bench rig.old cells.old reads.old writes.old) (rig_bench rig.new cells.new reads.new writes.new) }
{
    let mut calls = calls;
    for (at, answer) in answers.iter_mut().enumerate() {
        match calls.next() {
            Some(call) => *answer = make(rig, call, cells, reads, writes),
            None => return at,
        }
    }
    answers.len()
}

/// Sets a rig up and makes the calls on it, one after another, with no memory but what is lent: as many calls as there is
/// room for their answers. No size that a rig may not have can be handed over, so no run is refused.
pub fn run_with<B: Board, P: Policy, W: Word, C: Calls<W> + Drop>(
    from: SetUp<B, P>,
    calls: C,
    cells: &mut [W],
    reads: &mut [Slot<W>],
    writes: &mut [Slot<W>],
    answers: &mut [Answer<W>],
) -> RunWith<B, P>
    ensures count { result.count ≡ min (length (C.Calls.made calls)) (length answers.old) }
    ensures ran { let kit = kit_of W.Word B.Board P.Policy from.board from.policy in
        let before = bench (new_table from.size.heads from.size.cells) cells.old reads.old writes.old in
        Ran kit before (take result.count (C.Calls.made calls)) (take result.count answers.new) (rig_bench result.rig cells.new reads.new writes.new) }
    ensures rest { drop result.count answers.new ≡ drop result.count answers.old }
    ensures over { IsOver from.board from.policy result.rig }
{
    let mut rig = Rig::new(from.size, from.board, from.policy);
    let count = make_all(&mut rig, calls, cells, reads, writes, answers);
    RunWith { rig, count }
}

// Room for so many answers.
fn room<W: Word>(heap: Global, count: usize) -> Result<Vec<Answer<W>>, AllocError>
    ensures length { IfOk result (λ answers. vec_len answers ≡ count) }
    ensures room { IfOk result (λ answers. vec_capacity answers ≡ count) }
{
    let mut answers = Vec::with_capacity(heap, count)?;
    for _at in 0..count {
        answers.push_reserved(Err(Refusal::Lists));
    }
    Ok(answers)
}

/// The same for all of the calls, with the answers in memory of their own. Where memory is wanting no call is made, and the
/// lists are as they were.
pub fn run<B: Board + Drop, P: Policy + Drop, W: Word, C: Calls<W> + Drop>(
    heap: Global,
    from: SetUp<B, P>,
    calls: C,
    cells: &mut [W],
    reads: &mut [Slot<W>],
    writes: &mut [Slot<W>],
) -> Result<Run<B, P, W>, AllocError>
    ensures ran { let kit = kit_of W.Word B.Board P.Policy from.board from.policy in
        let before = bench (new_table from.size.heads from.size.cells) cells.old reads.old writes.old in
        IfOk result (λ run. Ran kit before (C.Calls.made calls) (vec_items run.answers) (rig_bench run.rig cells.new reads.new writes.new)) }
    ensures room { IfOk result (λ run. vec_capacity run.answers ≡ length (C.Calls.made calls)) }
    ensures over { IfOk result (λ run. IsOver from.board from.policy run.rig) }
    ensures untouched { OnErr result ((cells.new ≡ cells.old) × (reads.new ≡ reads.old) × (writes.new ≡ writes.old)) }
{
    let mut answers = room(heap, calls.left())?;
    let ran = run_with(from, calls, cells, reads, writes, answers.as_mut_slice());
    Ok(Run {
        rig: ran.rig,
        answers,
    })
}
