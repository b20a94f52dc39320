//! Work for a clock: gathers the file that the first argument names, with the include folders that
//! the others name, and prints how many names the bundle has.
#![tactic(auto)]

use hv_gather::{GatherFault, gather};
use hv_outside::{DirFiles, Files};
use std::alloc::{AllocError, Global};
use std::process::ExitCode;
use std::{env, io};

/// What gathering gave, as one line.
fn report<F: Files>(
    alloc: Global,
    files: &mut F,
    main: &str,
    dirs: &[String],
) -> Result<String, AllocError> {
    match gather(alloc, files, main, dirs) {
        Ok(bundle) => format!(in alloc; "{} names", bundle.len()),
        Err(GatherFault::Read { .. }) => String::from_str(alloc, "a file can't be read"),
        Err(GatherFault::MainAbsent) => String::from_str(alloc, "there is no main file"),
        Err(GatherFault::TooBig { length, total, .. }) => format!(in alloc;
            "too big: {length} bytes, {total} in all"
        ),
        Err(GatherFault::Memory) => Err(AllocError),
    }
}

fn main(rt: HostRuntime) -> io::Result<ExitCode> {
    let words: Vec<String> = env::args(&rt)?.skip(1).collect(rt.alloc())?;
    let Some((main, dirs)) = words.as_slice().split_first() else {
        eprintln!(rt; "name a file")?;
        return Ok(ExitCode::from(2));
    };
    let mut files = DirFiles::new(&rt);
    let line = report(rt.alloc(), &mut files, main.as_str(), dirs)?;
    println!(rt; "{line}")?;
    Ok(ExitCode::SUCCESS)
}
