//! The whole program on files, input and sinks in memory. Expected values come from the C standard
//! and docs/FORMATS.md.
mod controlling;
mod encode;
mod files;
mod options;
mod refusals;
mod variant;
mod writes;

use hv_base::{Config, List, Text};
use hv_cli::hercules;
use hv_model::{Model, read_model};
use hv_outside::{MemFiles, SafeSink, SafeSource, Sink};
use hv_plain::small_run;
use std::alloc::{AllocError, Global};
use std::process::Abort;
use std::test::Fail;

const MODEL_A: &str = "option A\n";

const WRITES_X_AND_A: &str = "\
int putchar(int);
int main(void) {
    putchar(120);
#ifdef A
    putchar(65);
#endif
}
";

/// How a call of the program ended.
#[derive(Drop)]
struct Ended {
    status: u8,
    out: SafeSink,
    err: SafeSink,
}

fn arguments(alloc: Global, texts: &[&str]) -> Result<Vec<String>, AllocError> {
    let mut arguments = Vec::new(alloc);
    for text in texts {
        arguments.push(String::from_str(alloc, text)?)?;
    }
    Ok(arguments)
}

/// Files in memory with a model `m` and a source `main.c`, of which the reads of these numbers
/// fail.
fn files_in_memory(
    alloc: Global,
    model: &str,
    source: &str,
    fails: &[u64],
) -> Result<MemFiles, Fail> {
    let mut files = MemFiles::new(alloc, List::from_slice(alloc, fails)?);
    files.put("m", Text::from_slice(alloc, model.as_bytes())?)?;
    files.put("main.c", Text::from_slice(alloc, source.as_bytes())?)?;
    Ok(files)
}

/// Calls the program with these arguments and sinks: the only caller of the top call.
fn status<O: Sink, E: Sink>(
    alloc: Global,
    texts: &[&str],
    files: &mut MemFiles,
    out: &mut O,
    err: &mut E,
) -> Result<u8, Fail> {
    let arguments = arguments(alloc, texts)?;
    let mut input = SafeSource::new(Text::new(alloc));
    Ok(hercules(alloc, arguments.as_slice(), files, &mut input, out, err))
}

fn call(alloc: Global, texts: &[&str], files: &mut MemFiles) -> Result<Ended, Fail> {
    let mut out = SafeSink::new(alloc);
    let mut err = SafeSink::new(alloc);
    let status = status(alloc, texts, files, &mut out, &mut err)?;
    Ok(Ended { status, out, err })
}

/// `encode --model m main.c` for this model and this source.
fn encoded(alloc: Global, model: &str, source: &str) -> Result<Ended, Fail> {
    call(
        alloc,
        &["encode", "--model", "m", "main.c"],
        &mut files_in_memory(alloc, model, source, &[])?,
    )
}

/// The status, the bytes of the output and the message are these.
fn assert_ended<R: Abort + AllocGlobal>(rt: &R, ended: &Ended, status: u8, out: &str, err: &str) {
    assert_eq!(rt; ended.err.bytes(), err.as_bytes());
    assert_eq!(rt; ended.status, status);
    assert_eq!(rt; ended.out.bytes(), out.as_bytes());
}

/// What the small program writes in the configuration of this number, in which option i is on where
/// bit i is, or nothing where the text isn't a small program.
fn output(alloc: Global, model: &Model, text: &[u8], number: usize) -> Result<Option<Text>, Fail> {
    let mut values = Vec::new(alloc);
    let mut rest = number;
    for _ in 0..model.options() {
        values.push(rest % 2 == 1)?;
        rest /= 2;
    }
    let config = Config {
        on: List::from_slice(alloc, values.as_slice())?,
    };
    if config.on.len() != model.options() {
        return Ok(None);
    }
    Ok(small_run(alloc, text, model, &config)?)
}

/// The metaproduct writes these bytes in the configurations of these numbers.
fn assert_outputs<R: Abort + AllocGlobal>(
    rt: &R,
    model: &str,
    source: &str,
    outputs: &[(usize, &str)],
) -> Result<(), Fail> {
    let ended = encoded(rt.alloc(), model, source)?;
    assert_eq!(rt; ended.err.bytes().len(), 0, "at {source}");
    assert_eq!(rt; ended.status, 0, "at {source}");
    let model = read_model(rt.alloc(), model.as_bytes())?;
    for (number, wanted) in outputs {
        let got = output(rt.alloc(), &model, ended.out.bytes(), *number)?;
        assert_eq!(rt;
            got.as_ref().map(|text| text.as_slice()),
            Some(wanted.as_bytes()),
            "in configuration {number} of {source}"
        );
    }
    Ok(())
}
