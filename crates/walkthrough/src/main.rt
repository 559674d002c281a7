// Prints a walk through a few transactions of two heads, made by handles from open to the last push.
#![tactic(auto)]

mod bench;
mod steps;
mod stopped;

use crate::bench::Bench;
use crate::stopped::Stopped;

fn walk(rt: &HostRuntime) -> Result<(), Stopped> {
    let mut bench = Bench::set_up([1450, 1120]);

    // head 1 stores to a line that head 0 has read, which aborts head 0
    let reader = bench.open(rt, 0)?;
    bench.read(rt, 0, &reader, 0)?;
    let writer = bench.open(rt, 1)?;
    bench.write(rt, 1, &writer, 0, 1500)?;
    bench.commit(rt, 1, writer)?;
    bench.read(rt, 0, &reader, 0)?;

    // two interrupts more, and the plain policy sends it to software
    let reader = bench.retry(rt, 0, reader)?;
    bench.jolt(rt, 0, &reader)?;
    let reader = bench.retry(rt, 0, reader)?;
    bench.jolt(rt, 0, &reader)?;
    let reader = bench.retry(rt, 0, reader)?;

    // a software commit writes back slot by slot
    bench.read(rt, 0, &reader, 0)?;
    bench.write(rt, 0, &reader, 1, 1160)?;
    bench.write(rt, 0, &reader, 0, 1510)?;
    bench.commit(rt, 0, reader)?;

    let second = bench.open(rt, 1)?;
    bench.write(rt, 1, &second, 0, 0)?;
    bench.give_up(rt, 1, second)?;

    for (cell, word) in bench.cells.iter().enumerate() {
        println!(rt; "cell {cell} holds {word}")?;
    }
    Ok(())
}

// A step that should be granted and is not, or that cannot be printed, is told on standard error.
fn main(rt: HostRuntime) {
    match walk(&rt) {
        Ok(()) => {}
        Err(Stopped::Refused(refusal)) => {
            let _ = eprintln!(rt; "walkthrough: a step was refused with {}", refusal.number());
        }
        Err(Stopped::NotPrinted(_)) => {
            let _ = eprintln!(rt; "walkthrough: a step could not be printed");
        }
    }
}

#[cfg(test)]
mod tests;
