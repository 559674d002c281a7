// Calls by handle, one at a time and as a list.
use crate::bench::{Bench, lists};
use handles::{Aborted, Closed, Pushed, Refused, Running, WritingBack};
use parts::{Call, LinesBoard, Margin, Plain, Size};
use rules::{Caller, Closing, Granted, LentLists, MadeCall, Refusal, Slot};
use runs::{Answer, SetUp, run};
use std::process::Abort;
use std::test::Fail;

// The number of an answer, and its value, 0 where it has none.
fn shown(answer: Answer<i32>) -> (u8, u32) {
    match answer {
        Ok(Granted::Begun(mode)) => (0, u32::from(mode.number())),
        Ok(Granted::Word(word)) => (0, word.unsigned_abs()),
        Ok(Granted::Done) => (0, 0),
        Ok(Granted::Closed(Closing::Complete(attempts))) => (0, attempts),
        Ok(Granted::Closed(Closing::WritingBack(attempts))) => (1, attempts),
        Ok(Granted::SlotsLeft(slots)) => (0, u32::from(slots)),
        Err(Refusal::Aborted(cause)) => (6, u32::from(cause.number())),
        Err(refusal) => (refusal.number(), 0),
    }
}

// The calls of the walk as a list, made by head and by handle, and one by a handle whose transaction has ended.
static CALLS: [(u32, Option<u32>, Call<u32, i32>, (u8, u32)); 21] = [
    (0, None, Call::Open, (0, 1)),
    (0, Some(1), Call::Read(0), (0, 1450)),
    (1, None, Call::Open, (0, 1)),
    (1, Some(2), Call::Write(0, 1500), (0, 0)),
    (1, Some(2), Call::Close, (0, 1)),
    (0, Some(1), Call::Read(0), (6, 1)),
    (0, Some(1), Call::Again, (0, 1)),
    (0, Some(1), Call::Jolt, (6, 4)),
    (0, Some(1), Call::Again, (0, 1)),
    (0, Some(1), Call::Jolt, (6, 4)),
    (0, Some(1), Call::Again, (0, 2)),
    (0, Some(1), Call::Read(0), (0, 1500)),
    (0, Some(1), Call::Write(1, 1160), (0, 0)),
    (0, Some(1), Call::Write(0, 1510), (0, 0)),
    (0, Some(1), Call::Close, (1, 4)),
    (0, Some(1), Call::Push, (0, 1)),
    (0, Some(1), Call::Push, (0, 0)),
    (1, None, Call::Open, (0, 1)),
    (1, Some(2), Call::Write(0, 0), (12, 0)),
    (1, Some(3), Call::Write(0, 0), (0, 0)),
    (1, Some(3), Call::Drop, (0, 0)),
];

// A run of them comes to the answers and the cells of the walk.
#[test]
fn walk_as_a_list(rt: HostRuntime) -> Result<(), Fail> {
    let heap = rt.alloc();
    let slot = Slot { cell: 0, word: 0 };
    let mut cells = [1450, 1120];
    let mut reads = [slot; 64];
    let mut writes = [slot; 64];
    let mut calls = Vec::new(heap);
    for (head, transaction, call, _) in CALLS {
        calls.push(MadeCall {
            lent: LentLists::Right,
            caller: Caller { head, transaction },
            call,
        })?;
    }
    let from = SetUp {
        size: Size { heads: 2, cells: 2 },
        board: Margin { below: LinesBoard },
        policy: Plain,
    };
    let run = run(
        heap,
        from,
        calls.iter().copied(),
        &mut cells,
        &mut reads,
        &mut writes,
    )?;
    assert_eq!(rt; run.answers.len(), CALLS.len());
    for (answer, (_, _, _, expected)) in run.answers.iter().zip(&CALLS) {
        assert_eq!(rt; shown(*answer), *expected);
    }
    assert_eq!(rt; cells, [1510, 1160]);
    Ok(())
}

// Steps of head 0, of which nothing is printed.
fn open(bench: &mut Bench) -> Result<Running, Refusal> {
    Ok(Running::open(&mut bench.rig, 0, lists!(bench))?.handle)
}

fn read(bench: &mut Bench, handle: &Running) -> Result<i32, Refusal> {
    handle.read(
        &mut bench.rig,
        0,
        &bench.cells,
        &mut bench.reads,
        &bench.writes,
    )
}

fn jolt(bench: &mut Bench, handle: &Running) -> Result<(), Refusal> {
    handle.jolt(&mut bench.rig, lists!(bench))
}

fn again(bench: &mut Bench, handle: Running) -> Option<Running> {
    let aborted = handle.into_aborted(&bench.rig).ok()?;
    let begun = aborted.again(&mut bench.rig, lists!(bench)).ok()?;
    Some(begun.handle)
}

fn drop_aborted(bench: &mut Bench, handle: Aborted) -> Result<(), Refused<Aborted>> {
    handle.drop(&mut bench.rig, lists!(bench))
}

// By its number.
fn drop_by_number(bench: &mut Bench) -> Result<(), Refusal> {
    let who = Caller {
        head: 0,
        transaction: None,
    };
    bench.rig.drop(who, lists!(bench))
}

// A software attempt: three interrupts, and the plain policy says so.
fn in_software(bench: &mut Bench) -> Option<Running> {
    let mut handle = open(bench).ok()?;
    for _ in 0..3 {
        let _ = jolt(bench, &handle);
        handle = again(bench, handle)?;
    }
    Some(handle)
}

// The number and the value of a push.
fn told(answer: &Result<Pushed, Refused<Option<WritingBack>>>) -> (u8, u8) {
    match answer {
        Ok(pushed) => (pushed.number(), pushed.value()),
        Err(refused) => (refused.refusal.number(), 0),
    }
}

// A handle that comes back from a push, whether it was granted or not.
fn kept(answer: Result<Pushed, Refused<Option<WritingBack>>>) -> Option<WritingBack> {
    match answer {
        Ok(Pushed::Done) => None,
        Ok(Pushed::Left(handle, _)) => Some(handle),
        Err(Refused { handle, .. }) => handle,
    }
}

// A handle of a transaction that is over: 5 while its head is idle, and 12 once the head has another one.
fn handle_of_an_ended_transaction_on<R: Abort>(rt: &R, bench: &mut Bench) -> Result<(), Fail> {
    let Ok(old) = open(bench) else {
        return Err(Fail::new("no transaction"));
    };
    let Err(back) = old.into_aborted(&bench.rig) else {
        return Err(Fail::new("exchanged, though the head had not aborted"));
    };
    assert_eq!(rt; back.refusal, Refusal::NotTaken);
    let old = back.handle;
    assert_eq!(rt; drop_by_number(bench), Ok(()));
    assert_eq!(rt; read(bench, &old), Err(Refusal::NotTaken));
    let Ok(new) = open(bench) else {
        return Err(Fail::new("no second transaction"));
    };
    assert_ne!(rt; old, new);
    assert_eq!(rt; read(bench, &old), Err(Refusal::StaleHandle));
    let Err(back) = old.into_aborted(&bench.rig) else {
        return Err(Fail::new("exchanged, though it was stale"));
    };
    assert_eq!(rt; back.refusal, Refusal::StaleHandle);
    assert_eq!(rt; read(bench, &new), Ok(5));
    let _ = jolt(bench, &new);
    let Ok(aborted) = new.into_aborted(&bench.rig) else {
        return Err(Fail::new("not exchanged"));
    };
    assert_eq!(rt; drop_aborted(bench, aborted), Ok(()));
    Ok(())
}

// A writing-back handle comes back from a push with wrong lists, and is used up by 5.
fn handle_of_a_commit_on<R: Abort>(rt: &R, bench: &mut Bench) -> Result<(), Fail> {
    let Some(handle) = in_software(bench) else {
        return Err(Fail::new("no software attempt"));
    };
    for cell in 0..2 {
        let written = handle.write(
            &mut bench.rig,
            cell,
            9,
            &bench.cells,
            &bench.reads,
            &mut bench.writes,
        );
        assert!(rt; written.is_ok());
    }
    let Ok(closed) = handle.close(
        &mut bench.rig,
        &mut bench.cells,
        &bench.reads,
        &bench.writes,
    ) else {
        return Err(Fail::new("not closed"));
    };
    assert_eq!(rt; (closed.number(), closed.value()), (1, 4));
    let Closed::WritingBack(handle, _) = closed else {
        return Err(Fail::new("nothing to push"));
    };
    let none: [Slot<i32>; 0] = [];
    let handle = match handle.push(&mut bench.rig, &mut bench.cells, &none, &bench.writes) {
        Err(
            Refused {
                refusal,
                handle: Some(handle),
            },
        ) => {
            assert_eq!(rt; refusal.number(), 2);
            handle
        }
        answer => {
            if let Some(handle) = kept(answer) {
                let _ = bench.finish(handle);
            }
            return Err(Fail::new("not refused for a list of wrong length"));
        }
    };
    assert_eq!(rt; bench.cells, [5, 7]);
    let first = handle.push(
        &mut bench.rig,
        &mut bench.cells,
        &bench.reads,
        &bench.writes,
    );
    assert_eq!(rt; told(&first), (0, 1));
    let Some(handle) = kept(first) else {
        return Err(Fail::new("no slot left after one push of two"));
    };
    assert_eq!(rt; bench.cells, [9, 7]);
    let head = Caller {
        head: 0,
        transaction: None,
    };
    let last = bench
        .rig
        .push(head, &mut bench.cells, &bench.reads, &bench.writes);
    assert!(rt; last.is_ok());
    assert!(rt; bench.rig.lists_match(lists!(bench)));
    match handle.push(
        &mut bench.rig,
        &mut bench.cells,
        &bench.reads,
        &bench.writes,
    ) {
        Err(
            Refused {
                refusal,
                handle: None,
            },
        ) => {
            assert_eq!(rt; refusal.number(), 5);
            Ok(())
        }
        Err(
            Refused {
                handle: Some(handle),
                ..
            },
        )
        | Ok(Pushed::Left(handle, _)) => {
            let _ = bench.finish(handle);
            Err(Fail::new("not used up"))
        }
        Ok(Pushed::Done) => Err(Fail::new("pushed once more")),
    }
}

#[test]
fn handle_of_an_ended_transaction(rt: HostRuntime) -> Result<(), Fail> {
    let mut bench = Bench::set_up([5, 7]);
    handle_of_an_ended_transaction_on(&rt, &mut bench)
}

#[test]
fn handle_of_a_commit(rt: HostRuntime) -> Result<(), Fail> {
    let mut bench = Bench::set_up([5, 7]);
    handle_of_a_commit_on(&rt, &mut bench)
}

#[test]
fn refused_handle_prints_as_its_refusal(rt: HostRuntime) -> Result<(), Fail> {
    let refused = Refused {
        refusal: Refusal::StaleHandle,
        handle: (),
    };
    let text = format!(in rt.alloc(); "{refused}")?;
    assert_eq!(rt; text.as_str(), "the handle's transaction is not its head's");
    Ok(())
}
