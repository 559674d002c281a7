// Prints the lines of a run sheet for the last transactions that a rig opens, and for the next, which it refuses: more calls
// than the text of a scenario can hold.
#![tactic(auto)]

mod calls;

use calls::{opens_and_drops, shown};
use entries::HeadCall;
use parts::{LinesBoard, Margin, Plain, Size};
use rules::{MadeCall, SLOTS, Slot};
use runs::{Answer, SetUp, run};
use sheets::{CellRow, Row};
use std::alloc::Global;
use std::io;

// Opened and dropped before the calls that are shown. A number of its own, so that another most shows in what is printed.
const BEFORE: usize = 59_998;

// Prints the calls from a place on, each with its answer.
fn print_rows(
    rt: &impl Print,
    calls: &[MadeCall<i32>],
    answers: &[Answer<i32>],
    first: usize,
) -> io::Result<()> {
    for (made, answer) in calls.iter().zip(answers).skip(first) {
        let made = HeadCall {
            head: made.caller.head,
            call: made.call,
        };
        let answer = *answer;
        println!(rt; "{}", Row { made, answer })?;
    }
    Ok(())
}

fn main(rt: HostRuntime) -> io::Result<()> {
    let heap: Global = rt.alloc();
    let mut calls = opens_and_drops(heap, 0, BEFORE)?;
    let first = calls.len();
    calls.extend_from_slice(&shown())?;
    let slot = Slot { cell: 0, word: 0 };
    let mut cells = [0_i32];
    let mut reads = [slot; 2 * SLOTS];
    let mut writes = [slot; 2 * SLOTS];
    let from = SetUp {
        size: Size { heads: 2, cells: 1 },
        board: Margin { below: LinesBoard },
        policy: Plain,
    };
    let ran = run(
        heap,
        from,
        calls.iter().copied(),
        &mut cells,
        &mut reads,
        &mut writes,
    )?;
    print_rows(&rt, &calls, &ran.answers, first)?;
    let word = cells[0];
    println!(rt; "{}", CellRow { cell: 0, word })
}
