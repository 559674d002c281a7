// Prints the run sheet of the scenario on standard input.
#![tactic(auto)]

use sheets::print_run_sheet;

// Ends with status 0 whatever comes in: a text that could not be read, or not be run for want of memory, is
// reported on standard error and leaves nothing on standard output.
fn main(rt: HostRuntime) {
    if print_run_sheet(rt.alloc(), rt.stdin(), &mut rt.stdout()).is_err() {
        let _ = eprintln!(rt;
            "runsheet: the text could not be read, or its run sheet could not be written"
        );
    }
}

#[cfg(test)]
mod library_tests;
#[cfg(test)]
mod stream_tests;
#[cfg(test)]
mod tests;
