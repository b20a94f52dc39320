//! Work for a clock: cuts the file that the one argument names, and prints how many tokens it has.
#![tactic(auto)]

use hv_lexer::{LexRefusal, lex};
use hv_outside::{DirFiles, Files, Got};
use std::alloc::{AllocError, Global};
use std::process::ExitCode;
use std::{env, io};

/// What cutting the file gave, as one line.
fn report<F: Files + Drop>(alloc: Global, files: &mut F, name: &str) -> Result<String, AllocError> {
    match files.read(alloc, name) {
        Ok(Got::Bytes(bytes)) => match lex(alloc, 0, bytes.as_slice()) {
            Ok(tokens) => format!(in alloc; "{} tokens", tokens.len()),
            Err(LexRefusal::OpenComment { offset }) => format!(in alloc;
                "an open comment at {offset}"
            ),
            Err(LexRefusal::Memory) => Err(AllocError),
        },
        _ => String::from_str(alloc, "the file can't be read"),
    }
}

fn main(rt: HostRuntime) -> io::Result<ExitCode> {
    let Some(name) = env::args(&rt)?.nth(1) else {
        eprintln!(rt; "name a file")?;
        return Ok(ExitCode::from(2));
    };
    let mut files = DirFiles::new(&rt);
    let line = report(rt.alloc(), &mut files, name.as_str())?;
    println!(rt; "{line}")?;
    Ok(ExitCode::SUCCESS)
}
