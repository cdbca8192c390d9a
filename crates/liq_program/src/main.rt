//! The program: the words after its name, real files, standard output and error, and the status of the call.
#![tactic(auto)]

use liq_cli::liq;
use real_files::{FileShelf, OutSink, words};
use std::process::ExitCode;
use step_gate::StepGate;

/// The status of a call whose words could not be held.
const NO_MEMORY: u8 = 5;

// Runs `liq` on the words of the command line, over real files and the standard streams, and exits with the status of
// the call.
fn main(rt: HostRuntime) -> ExitCode {
    let alloc = rt.alloc();
    let Some(words) = words(&rt) else {
        return ExitCode::from(NO_MEMORY);
    };
    let mut shelf = FileShelf::new(&rt);
    let mut out = OutSink::new(rt.stdout());
    let mut err = OutSink::new(rt.stderr());
    let gate = StepGate::new(&rt);
    let status = liq(&rt, alloc, &words, &mut shelf, &mut out, &mut err, &gate);
    ExitCode::from(status)
}
