//! Work for a clock on the expansion of macros: `WORK N ..` does each work at the size N, and
//! prints what it came to.
#![tactic(auto)]

mod bodies;
mod conditions;
mod family;
mod works;

use crate::works::{Work, run};
use std::alloc::AllocError;
use std::env;
use std::io::{self, ErrorKind};
use std::process::ExitCode;
use std::rt::Env;

#[cfg(test)]
mod tests;

/// The status for words that name no work.
const BAD_WORDS: u8 = 2;

/// The status for want of memory, or for output that cannot be written.
const FAILED: u8 = 5;

fn main(rt: HostRuntime) -> ExitCode {
    let Ok(words) = words(&rt) else {
        return ExitCode::from(FAILED);
    };
    if words.len() == 0 {
        return bad_words(&rt);
    }
    for pair in words.as_slice().chunks(2) {
        let Some((work, n)) = asked(pair) else {
            return bad_words(&rt);
        };
        let Ok(answer) = run(rt.alloc(), work, n) else {
            return ExitCode::from(FAILED);
        };
        if println!(rt; "{} {n}: {answer}", work.name()).is_err() {
            return ExitCode::from(FAILED);
        }
    }
    ExitCode::SUCCESS
}

/// The work that two words ask for, with its size.
fn asked(pair: &[String]) -> Option<(Work, u32)> {
    let [name, number] = pair else {
        return None;
    };
    let work = Work::from_name(name.as_str())?;
    let n = number.as_str().parse::<u32>().ok()?;
    Some((work, n))
}

fn bad_words(rt: &impl Eprint) -> ExitCode {
    status_of(eprintln!(rt; "bad words"), BAD_WORDS)
}

/// The status after a line was printed.
fn status_of(printed: io::Result<()>, status: u8) -> ExitCode {
    ExitCode::from(if printed.is_ok() { status } else { FAILED })
}

/// The words after the program's name. Words that are no UTF-8 name no work, so they count as
/// none.
fn words<R: Env + AllocGlobal>(rt: &R) -> Result<Vec<String>, AllocError> {
    match env::args(rt) {
        Ok(words) => words.skip(1).collect(rt.alloc()),
        Err(error) if error.kind() == ErrorKind::OutOfMemory => Err(AllocError),
        Err(_) => Ok(Vec::new(rt.alloc())),
    }
}
