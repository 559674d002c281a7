// The calls that are made.
ghost use Rattle.std.specs.Prelude.{◌≡◌, IfOk, vec_items};
ghost use Rattle.last_transactions.specs.Calls.{made_by, opens_and_drops, shown};

use parts::Call;
use rules::{Caller, LentLists, MadeCall};
use std::alloc::{AllocError, Global};

// A call by its head's number, with lists of right length.
fn made_by(head: u32, call: Call<u32, i32>) -> MadeCall<i32>
    ensures { result ≡ made_by head call }
{
    MadeCall {
        lent: LentLists::Right,
        caller: Caller {
            head,
            transaction: None,
        },
        call,
    }
}

// The head opens a transaction and drops it, so many times.
pub(crate) fn opens_and_drops(
    heap: Global,
    head: u32,
    times: usize,
) -> Result<Vec<MadeCall<i32>>, AllocError>
    ensures { IfOk result (λ calls. vec_items calls ≡ opens_and_drops head times) }
{
    let mut calls = Vec::new(heap);
    for _at in 0..times {
        calls.push(made_by(head, Call::Open))?;
        calls.push(made_by(head, Call::Drop))?;
    }
    Ok(calls)
}

// The last that may open do, and others ask for one more.
pub(crate) fn shown() -> [MadeCall<i32>; 9]
    ensures { result ≡ shown }
{
    [
        made_by(0, Call::Open),
        made_by(0, Call::Drop),
        made_by(1, Call::Open),
        made_by(0, Call::Open),
        made_by(1, Call::Read(0)),
        made_by(1, Call::Write(0, 7)),
        made_by(1, Call::Close),
        made_by(1, Call::Open),
        made_by(0, Call::Open),
    ]
}
