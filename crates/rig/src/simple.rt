// The calls that look into no log: open, jolt, again and drop.
ghost use Rattle.std.specs.Prelude.{◌≡◌};
ghost use Rattle.rules.specs.Bench.{bench_with};
ghost use Rattle.rules.specs.Bounds.{InBounds};
ghost use Rattle.rules.specs.Kit.{retries_of};
ghost use Rattle.rules.specs.Calls.{outcome, open_of, jolt_of, drop_of, again_of};

use crate::admission::{Admitted, Transition, admit};
use crate::heads::{
    abort, begin, empty_logs, is_locked, next_mode, present_snapshot, with_transaction,
};
use parts::{Call, Cause, Mode, Policy, Word};
use rules::{Caller, Head, Lists, MOST_ATTEMPTS, MOST_TRANSACTIONS, Refusal, State, Table};

// A new transaction of an idle head begins in hardware.
#[tactic(auto, using(crate::proofs::Refused::refused))]
pub(crate) fn open<W: Word>(
    table: &mut Table,
    who: Caller,
    lists: Lists<'_, W>,
) -> Result<Mode, Refusal>
    requires { InBounds table.old }
    ensures { outcome result (bench_with table.new lists.entry)
        ≡ open_of (bench_with table.old lists.entry) who }
{
    let me = admit(table, who, Call::Open, lists)?.head;
    if is_locked(table) {
        return Err(Refusal::Busy);
    }
    if table.opened >= MOST_TRANSACTIONS {
        return Err(Refusal::OutOfTransactions);
    }
    table.opened += 1;
    let new = with_transaction(me, table.opened);
    table.heads[who.head as usize] = begin(new, Mode::Hardware, present_snapshot(table));
    Ok(Mode::Hardware)
}

// An interrupt aborts a hardware attempt.
pub(crate) fn jolt<W: Word>(
    table: &mut Table,
    who: Caller,
    lists: Lists<'_, W>,
) -> Result<(), Refusal>
    requires { InBounds table.old }
    ensures { outcome result (bench_with table.new lists.entry)
        ≡ jolt_of (bench_with table.old lists.entry) who }
{
    let me = admit(table, who, Call::Jolt, lists)?.head;
    table.heads[who.head as usize] = abort(me, Cause::Other);
    Err(Refusal::Aborted(Cause::Other))
}

// The transaction is given up.
pub(crate) fn cancel<W: Word>(
    table: &mut Table,
    who: Caller,
    lists: Lists<'_, W>,
) -> Result<(), Refusal>
    requires { InBounds table.old }
    ensures { outcome result (bench_with table.new lists.entry)
        ≡ drop_of (bench_with table.old lists.entry) who }
{
    let me = admit(table, who, Call::Drop, lists)?.head;
    table.heads[who.head as usize] = Head {
        state: State::Idle,
        ..empty_logs(me)
    };
    Ok(())
}

// The next attempt of an aborted head begins: in software after a software attempt, and as the policy says after a
// hardware one.
#[tactic(auto, using(crate::proofs::Refused::refused))]
pub(crate) fn again<P: Policy, W: Word>(
    table: &mut Table,
    policy: &P,
    who: Caller,
    lists: Lists<'_, W>,
) -> Result<Mode, Refusal>
    requires { InBounds table.old }
    ensures { outcome result (bench_with table.new lists.entry)
        ≡ again_of (retries_of P.Policy policy.now) (bench_with table.old lists.entry) who }
{
    let Admitted {
        head: me,
        transition,
    } = admit(table, who, Call::Again, lists)?;
    let Transition::Again { after } = transition else {
        unreachable!();
    };
    if is_locked(table) {
        return Err(Refusal::Busy);
    }
    if me.attempts >= MOST_ATTEMPTS {
        return Err(Refusal::OutOfAttempts);
    }
    let mode = next_mode(policy, after, me.hardware_aborts);
    table.heads[who.head as usize] = begin(me, mode, present_snapshot(table));
    Ok(mode)
}
