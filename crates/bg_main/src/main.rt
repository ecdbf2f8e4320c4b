//! The program: the top call over the files and the streams of the system.
#![tactic(auto)]

use bg_claims::FreeGate;
use bg_ends::Status;
use bg_io::{RealFiles, StdSink};
use bg_tool::run;
use std::alloc::AllocError;
use std::env;
use std::io::ErrorKind;
use std::process::ExitCode;

/// The words of the command line; where one isn't a text, there are none.
fn words_of(rt: &HostRuntime) -> Result<Vec<String>, AllocError> {
    match env::args(rt) {
        Ok(args) => Ok(args.collect(rt.alloc())?),
        Err(e) if e.kind() == ErrorKind::OutOfMemory => Err(AllocError),
        Err(_) => Ok(Vec::new(rt.alloc())),
    }
}

fn main(rt: HostRuntime) -> ExitCode {
    let Ok(words) = words_of(&rt) else {
        return ExitCode::from(Status::Memory.number());
    };
    let mut files = RealFiles::new(&rt);
    let mut out = StdSink::new(rt.stdout());
    let mut err = StdSink::new(rt.stderr());
    let status = run(&rt, &words, &mut files, &mut out, &mut err, &FreeGate);
    ExitCode::from(status.number())
}
