//! The program `hercules`: it makes the real files, input and sinks, and hands them to the top
//! call.
#![tactic(auto)]

use hv_base::Status;
use hv_cli::hercules;
use hv_outside::{DirFiles, StdSink, StdSource, write_all};
use std::alloc::AllocError;
use std::env;
use std::io::ErrorKind;
use std::process::ExitCode;
use std::rt::Env;

fn main(rt: HostRuntime) -> ExitCode {
    let mut err = StdSink::new(rt.stderr());
    let Ok(words) = words(&rt) else {
        let _ = write_all(&mut err, b"hercules: want of memory\n");
        return ExitCode::from(Status::Memory.code());
    };
    let mut files = DirFiles::new(&rt);
    let mut input = StdSource::new(rt.stdin());
    let mut out = StdSink::new(rt.stdout());
    let status = hercules(
        rt.alloc(),
        words.as_slice(),
        &mut files,
        &mut input,
        &mut out,
        &mut err,
    );
    ExitCode::from(status)
}

/// The arguments, after the program's name. Arguments that aren't UTF-8 make no command, so they
/// count as none.
fn words<R: Env + AllocGlobal>(rt: &R) -> Result<Vec<String>, AllocError> {
    match env::args(rt) {
        Ok(words) => words.skip(1).collect(rt.alloc()),
        Err(error) if error.kind() == ErrorKind::OutOfMemory => Err(AllocError),
        Err(_) => Ok(Vec::new(rt.alloc())),
    }
}

#[cfg(test)]
mod tests;
