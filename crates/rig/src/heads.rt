// What becomes of a head's record.
ghost use Rattle.std.specs.Prelude.{◌≡◌, ◌<◌, ◌&&◌};
ghost use Rattle.rules.specs.Bench.{present_snapshot, is_odd};
ghost use Rattle.rules.specs.Bounds.{HeadBounds};
ghost use Rattle.rules.specs.declared.types.State.TheVariants.{Aborted};
ghost use Rattle.rules.specs.Heads.{abort, begin, with_transaction, empty_logs, next_mode, is_hardware, is_software, state_in};

use parts::{Cause, Mode, Policy};
use rules::{Head, MOST_ATTEMPTS, Snapshot, State, Table};

// The snapshot that an attempt takes now.
pub(crate) fn present_snapshot(table: &Table) -> Snapshot
    ensures { result ≡ present_snapshot table.now }
{
    Snapshot {
        sequence: table.sequence,
        commits: table.commits,
    }
}

// Whether a software commit writes back.
pub(crate) fn is_locked(table: &Table) -> bool
    ensures { result ≡ is_odd table.now.sequence }
{
    table.sequence % 2 == 1
}

// Whether an attempt of the head runs in hardware.
pub(crate) fn is_hardware(head: Head) -> bool
    ensures { result ≡ is_hardware head.state }
{
    matches!(head.state, State::Hardware)
}

// Whether an attempt is in software, and has to wait for a commit that writes back.
pub(crate) fn must_wait(table: &Table, mode: Mode) -> bool
    ensures { result ≡ (is_software (state_in mode) && is_odd table.now.sequence) }
{
    matches!(mode, Mode::Software) && is_locked(table)
}

// With both logs emptied.
pub(crate) fn empty_logs(head: Head) -> Head
    ensures { result ≡ empty_logs head }
{
    Head {
        read_count: 0,
        write_count: 0,
        ..head
    }
}

// The head once it has aborted: an abort in hardware is counted.
pub(crate) fn abort(head: Head, cause: Cause) -> Head
    requires { HeadBounds head }
    ensures { result ≡ abort cause head }
{
    let hardware_aborts = match head.state {
        State::Hardware => head.hardware_aborts + 1,
        _ => head.hardware_aborts,
    };
    Head {
        state: State::Aborted(cause),
        hardware_aborts,
        ..empty_logs(head)
    }
}

// The head with a new transaction.
pub(crate) fn with_transaction(head: Head, number: u32) -> Head
    ensures { result ≡ with_transaction number head }
{
    Head {
        transaction: number,
        attempts: 0,
        hardware_aborts: 0,
        ..head
    }
}

// The head at the start of an attempt: a software one takes the snapshot.
pub(crate) fn begin(head: Head, mode: Mode, present: Snapshot) -> Head
    requires { head.attempts < MOST_ATTEMPTS }
    ensures { result ≡ begin mode present head }
{
    let (state, snapshot) = match mode {
        Mode::Hardware => (State::Hardware, head.snapshot),
        Mode::Software => (State::Software, present),
    };
    Head {
        state,
        attempts: head.attempts + 1,
        stores: 0,
        snapshot,
        ..empty_logs(head)
    }
}

// How the next attempt of a head runs that has aborted: a change ends only software attempts, so there is nothing to ask then.
pub(crate) fn next_mode<P: Policy>(policy: &P, after: Cause, aborts: u32) -> Mode
    ensures { result ≡ next_mode (P.Policy.next policy.now) aborts (Aborted after) }
{
    match after {
        Cause::Changed => Mode::Software,
        _ => policy.next(after, aborts),
    }
}
