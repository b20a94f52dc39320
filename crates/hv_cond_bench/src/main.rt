//! Work for a clock on conditions: `WORK N` builds a condition, and prints how many branches are
//! reached from it.
#![tactic(auto)]

mod branches;
mod deep;
mod pairs_and_chains;
mod queens;
mod works;

use crate::works::{Work, read_number, run};
use std::alloc::AllocError;
use std::env;
use std::io::{self, ErrorKind};
use std::process::ExitCode;
use std::rt::Env;

/// The status for words that name no work.
const BAD_WORDS: u8 = 2;

/// The status for want of memory, or for output that cannot be written.
const FAILED: u8 = 5;

fn main(rt: HostRuntime) -> ExitCode {
    let Ok(words) = words(&rt) else {
        return ExitCode::from(FAILED);
    };
    let [name, number] = words.as_slice() else {
        return bad_words(&rt);
    };
    let Some(work) = Work::from_name(name.as_str()) else {
        return bad_words(&rt);
    };
    let Some(n) = read_number(work, number.as_str()) else {
        return bad_words(&rt);
    };
    let Ok(branches) = run(rt.alloc(), work, n) else {
        return ExitCode::from(FAILED);
    };
    status_of(println!(rt; "{} {n}: {branches} nodes", work.name()), 0)
}

fn bad_words(rt: &impl Eprint) -> ExitCode {
    status_of(eprintln!(rt; "bad words"), BAD_WORDS)
}

/// The status after a line was printed.
fn status_of(printed: io::Result<()>, status: u8) -> ExitCode {
    ExitCode::from(if printed.is_ok() { status } else { FAILED })
}

/// The words after the program's name. Words that are no UTF-8 name no work, so they count as
/// none.
fn words<R: Env + AllocGlobal>(rt: &R) -> Result<Vec<String>, AllocError> {
    match env::args(rt) {
        Ok(words) => words.skip(1).collect(rt.alloc()),
        Err(error) if error.kind() == ErrorKind::OutOfMemory => Err(AllocError),
        Err(_) => Ok(Vec::new(rt.alloc())),
    }
}
