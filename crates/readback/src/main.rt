// Prints what a scenario on standard input says, line by line, up to its end or its first fault.
#![tactic(auto)]

use scenario::print_readback;

// Ends with status 0 whatever comes in: a text that could not be read, or not be told for want of memory, is
// reported on standard error and leaves nothing on standard output.
fn main(rt: HostRuntime) {
    if print_readback(rt.alloc(), rt.stdin(), &mut rt.stdout()).is_err() {
        let _ = eprintln!(rt;
            "readback: the text could not be read, or what it says could not be written"
        );
    }
}

#[cfg(test)]
mod stream_tests;
#[cfg(test)]
mod tests;
