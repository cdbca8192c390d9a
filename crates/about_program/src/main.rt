//! The program `about`: the words after its name, real files, standard input, output and error, and the status.
#![tactic(auto)]

use about_cli::about;
use real_files::{FileShelf, OutSink, words};
use std::process::ExitCode;

/// The status of a call whose words could not be held.
const NO_MEMORY: u8 = 5;

// Runs `about` on the words of the command line, over real files and the standard streams, and exits with the status of
// the call. Only regular files count as audio files and lists of a script.
fn main(rt: HostRuntime) -> ExitCode {
    let alloc = rt.alloc();
    let Some(words) = words(&rt) else {
        return ExitCode::from(NO_MEMORY);
    };
    let mut scripts = FileShelf::new(&rt);
    let mut shelf = FileShelf::regular(&rt);
    let mut input = rt.stdin();
    let mut out = OutSink::new(rt.stdout());
    let mut err = OutSink::new(rt.stderr());
    let status = about(
        alloc,
        &words,
        &mut scripts,
        &mut shelf,
        &mut input,
        &mut out,
        &mut err,
    );
    ExitCode::from(status)
}
