//! A script from standard input to standard output.

use std::alloc::Global;
use std::io;
use std::io::{Read, Write};
use urb_client::BufferedAnswers;
use urb_script::{RunEnd, RunFault, run};

// Runs a script from an input to an output. It sends the answers together, before a read that may
// wait and at the end.
fn run_buffered<I: Read + Drop, W: Write + Drop>(
    alloc: Global,
    input: I,
    output: W,
) -> Result<RunEnd, RunFault> {
    let Ok(answers) = BufferedAnswers::new(alloc, output) else {
        return Err(RunFault::NoMemory);
    };
    let Ok(mut reader) = answers.reader(alloc, input) else {
        return Err(RunFault::NoMemory);
    };
    let outcome = run(alloc, &mut reader, &mut answers.writer());
    let _ = answers.send_all();
    if answers.has_failed() {
        return Err(RunFault::Write);
    }
    outcome
}

/// Runs a script from standard input to standard output. While more lines are in memory, answers
/// aren't sent one by one. They are sent before a read of input that may wait. `NoMemory` may come
/// before anything was read.
pub fn replay<R: AllocGlobal + Print + Input>(rt: &R) -> Result<RunEnd, RunFault> {
    run_buffered(rt.alloc(), rt.reader(), io::writer(rt))
}
