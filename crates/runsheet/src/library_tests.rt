// Runs through the library: rates, calls by head and by handle, and lists of wrong length; a policy of one's own; and the
// texts of errors.
ghost use Rattle.parts.specs.declared.types.Cause.TheVariants as causes;
ghost use Rattle.parts.specs.declared.types.Mode.TheVariants as modes;
ghost use Rattle.parts.specs.Policies.{software_from};
ghost use Rattle.std.proofs.Common.{rules};

use parts::{Call, Cause, LinesBoard, Margin, Mode, Plain, Policy, Prices, Rate, Size, Word};
use rules::{Caller, Closing, Granted, LentLists, MadeCall, Refusal, Slot};
use runs::{Answer, SetUp, run};
use scenario::StreamError;
use std::alloc::AllocError;
use std::io;
use std::io::ErrorKind;
use std::process::Abort;
use std::test::Fail;

fn by<W: Word>(head: u32, transaction: Option<u32>, call: Call<u32, W>) -> MadeCall<W> {
    MadeCall {
        lent: LentLists::Right,
        caller: Caller { head, transaction },
        call,
    }
}

fn number(answer: Answer<Rate>) -> u8 {
    match answer {
        Ok(granted) => granted.number(),
        Err(refusal) => refusal.number(),
    }
}

// Head 0 goes to software and reads a rate per kilogram; head 1 stores the same prices per piece; then head 0 aborts.
#[test]
fn rates_by_head_and_by_handle(rt: HostRuntime) -> Result<(), Fail> {
    let heap = rt.alloc();
    let prices = Prices {
        retail: 1450,
        wholesale: 1120,
    };
    let slot = Slot {
        cell: 0,
        word: Rate::Unset,
    };
    let mut cells = [Rate::PerKilogram(prices), Rate::Unset];
    let mut reads = [slot; 64];
    let mut writes = [slot; 64];
    let wrong = MadeCall {
        lent: LentLists::Wrong,
        caller: Caller {
            head: 0,
            transaction: None,
        },
        call: Call::Read(0),
    };
    let calls = [
        by(0, None, Call::Open),
        by(0, Some(1), Call::Jolt),
        by(0, Some(1), Call::Again),
        by(0, None, Call::Jolt),
        by(0, None, Call::Again),
        by(0, None, Call::Jolt),
        by(0, None, Call::Again),
        by(0, None, Call::Read(0)),
        by(1, Some(2), Call::Open),
        by(1, None, Call::Open),
        by(1, Some(2), Call::Write(0, Rate::PerPiece(prices))),
        by(1, Some(2), Call::Close),
        wrong,
        by(0, None, Call::Read(1)),
        by(0, Some(1), Call::Drop),
    ];
    let Some(size) = Size::new(2, 2) else {
        return Err(Fail::new("no such size"));
    };
    let from = SetUp {
        size,
        board: Margin { below: LinesBoard },
        policy: Plain,
    };
    let Ok(run) = run(
        heap,
        from,
        calls.iter().copied(),
        &mut cells,
        &mut reads,
        &mut writes,
    ) else {
        return Err(Fail::new("no run"));
    };
    let numbers = [0, 6, 0, 6, 0, 6, 0, 0, 12, 0, 0, 0, 2, 6, 0];
    assert_eq!(rt; run.answers.len(), numbers.len());
    for (answer, expected) in run.answers.iter().zip(&numbers) {
        assert_eq!(rt; number(*answer), *expected);
    }
    assert!(rt; cells[0] == Rate::PerPiece(prices));
    Ok(())
}

// Software from the second hardware abort on; and hardware after a change, which ends only software attempts.
#[derive(Clone, Copy)]
struct HardwareAfterChange;

impl Policy for HardwareAfterChange {
    ghost next = { λ _ c aborts. elim c [ causes.Changed ↦ modes.Hardware | _ ↦ software_from 2 aborts ] };

    ghost patience = { λ _. 2 };

    ghost software_from_patience = { Prim.search rules };

    ghost at_least_one = { Prim.search rules };

    ghost at_most_64 = { Prim.search rules };

    fn next(&self, cause: Cause, aborts: u32) -> Mode {
        match cause {
            Cause::Changed => Mode::Hardware,
            Cause::Conflict | Cause::Capacity | Cause::Lock | Cause::Other => {
                if aborts >= 2 {
                    Mode::Software
                } else {
                    Mode::Hardware
                }
            }
        }
    }
}

// A head in software finds a word changed, and goes on in software, where the policy would say hardware.
#[test]
fn no_policy_is_asked_after_a_change(rt: HostRuntime) -> Result<(), Fail> {
    let slot = Slot { cell: 0, word: 0 };
    let mut cells = [5, 7];
    let mut reads = [slot; 64];
    let mut writes = [slot; 64];
    let rows: [(MadeCall<i32>, Answer<i32>); 13] = [
        (by(0, None, Call::Open), Ok(Granted::Begun(Mode::Hardware))),
        (by(0, None, Call::Jolt), Err(Refusal::Aborted(Cause::Other))),
        (by(0, None, Call::Again), Ok(Granted::Begun(Mode::Hardware))),
        (by(0, None, Call::Jolt), Err(Refusal::Aborted(Cause::Other))),
        (by(0, None, Call::Again), Ok(Granted::Begun(Mode::Software))),
        (by(0, None, Call::Read(0)), Ok(Granted::Word(5))),
        (by(1, None, Call::Open), Ok(Granted::Begun(Mode::Hardware))),
        (by(1, None, Call::Write(0, 6)), Ok(Granted::Done)),
        (
            by(1, None, Call::Close),
            Ok(Granted::Closed(Closing::Complete(1))),
        ),
        (
            by(0, None, Call::Read(1)),
            Err(Refusal::Aborted(Cause::Changed)),
        ),
        (by(0, None, Call::Again), Ok(Granted::Begun(Mode::Software))),
        (by(0, None, Call::Read(0)), Ok(Granted::Word(6))),
        (
            by(0, None, Call::Close),
            Ok(Granted::Closed(Closing::Complete(4))),
        ),
    ];
    let calls = rows.map(|row| row.0);
    let Some(size) = Size::new(2, 2) else {
        return Err(Fail::new("no such size"));
    };
    let from = SetUp {
        size,
        board: Margin { below: LinesBoard },
        policy: HardwareAfterChange,
    };
    let Ok(run) = run(
        rt.alloc(),
        from,
        calls.iter().copied(),
        &mut cells,
        &mut reads,
        &mut writes,
    ) else {
        return Err(Fail::new("no run"));
    };
    assert_eq!(rt; run.answers.len(), rows.len());
    for (answer, row) in run.answers.iter().zip(&rows) {
        assert!(rt; *answer == row.1);
    }
    Ok(())
}

#[test]
fn texts_of_refusals(rt: HostRuntime) -> Result<(), Fail> {
    let rows = [
        (
            Refusal::Lists,
            "a list is not as long as the cells, or as the slots of all heads",
        ),
        (Refusal::NoHead, "the rig has no such head"),
        (Refusal::NoCell, "the rig has no such cell"),
        (Refusal::NotTaken, "the head's state does not take the call"),
        (
            Refusal::Aborted(Cause::Changed),
            "the attempt has aborted, by Changed",
        ),
        (Refusal::Busy, "a software commit is writing back"),
        (
            Refusal::Full,
            "a new slot is needed, and the log has them all",
        ),
        (
            Refusal::OutOfTransactions,
            "the rig opens no more transactions",
        ),
        (Refusal::OutOfAttempts, "the transaction is tried no more"),
        (
            Refusal::OutOfRange,
            "no rig has so few or so many heads or cells",
        ),
        (
            Refusal::StaleHandle,
            "the handle's transaction is not its head's",
        ),
    ];
    for (refusal, expected) in rows {
        let text = format!(in rt.alloc(); "{refusal}")?;
        assert_eq!(rt; text.as_str(), expected);
    }
    Ok(())
}

#[test]
fn texts_of_stream_errors(rt: HostRuntime) -> Result<(), Fail> {
    let reset = io::Error::from(ErrorKind::ConnectionReset);
    let full = io::Error::from(ErrorKind::WriteZero);
    let rows = [
        (
            StreamError::NotRead(reset),
            "the text could not be read: connection reset",
        ),
        (StreamError::NoMemory(AllocError), "memory is wanting"),
        (
            StreamError::NotWritten(full),
            "what is printed of the text could not be written: write zero",
        ),
    ];
    for (error, expected) in &rows {
        let text = format!(in rt.alloc(); "{error}")?;
        assert_eq!(rt; text.as_str(), *expected);
    }
    Ok(())
}
