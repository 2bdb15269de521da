//! `pgqrun run` runs the script on standard input. What it prints goes to standard output, a complaint
//! to standard error.
#![tactic(auto)]

use sky_io::{StdSink, StdSource};
use sky_run::run_main;
use std::alloc::AllocError;
use std::env;
use std::io::ErrorKind;
use std::process::ExitCode;
use std::rt::Env;

/// The status if memory runs out.
const NO_MEMORY: u8 = 5;

fn main(rt: HostRuntime) -> ExitCode {
    let Ok(words) = words_behind_name(&rt) else {
        return ExitCode::from(NO_MEMORY);
    };
    let mut src = StdSource::new(rt.stdin());
    let mut out = StdSink::new(rt.stdout());
    let mut err = StdSink::new(rt.stderr());
    ExitCode::from(run_main(rt.alloc(), &words, &mut src, &mut out, &mut err))
}

// Words that can't be read, such as one that isn't UTF-8, are none that the program knows. No words at all give the
// same status.
fn words_behind_name<R: Env + AllocGlobal>(rt: &R) -> Result<Vec<String>, AllocError> {
    match env::args(rt) {
        Ok(args) => args.skip(1).collect(rt.alloc()),
        Err(error) if error.kind() == ErrorKind::OutOfMemory => Err(AllocError),
        Err(_) => Ok(Vec::new(rt.alloc())),
    }
}
