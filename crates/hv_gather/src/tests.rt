//! Trees of files as the tests write them, and what gathering answers, shown as one line.
use super::*;
use hv_base::{Held, List, MOST_NAMES, Memory, Text};
use hv_outside::{MemFiles, SafeFiles};
use std::alloc::AllocError;
use std::mem;
use std::process::Abort;
use std::test::Fail;

mod limits;
mod orders;
mod trees;

/// A file of a tree.
#[derive(Drop)]
struct File {
    name: String,
    text: String,
}

/// The files of a tree: a line `== NAME` comes before the text of each.
fn tree_of(alloc: Global, tree: &str) -> Result<Vec<File>, AllocError> {
    let mut files = Vec::new(alloc);
    let mut name = String::new(alloc);
    let mut text = String::new(alloc);
    for line in tree.lines() {
        if let Some(next) = line.strip_prefix("== ") {
            let next = String::from_str(alloc, next)?;
            files.push(File {
                name: mem::replace(&mut name, next),
                text: mem::replace(&mut text, String::new(alloc)),
            })?;
        } else {
            text.push_str(line)?;
            text.push('\n')?;
        }
    }
    files.push(File { name, text })?;
    Ok(files)
}

/// Files in memory, of which the reads of these numbers fail.
fn files_of(alloc: Global, tree: &[File], fails: &[u64]) -> Result<MemFiles, Memory> {
    let mut files = MemFiles::new(alloc, List::from_slice(alloc, fails)?);
    for file in tree {
        files.put(
            file.name.as_str(),
            Text::from_slice(alloc, file.text.as_bytes())?,
        )?;
    }
    Ok(files)
}

/// All files of a tree in a bundle.
fn bundle_of(alloc: Global, tree: &[File]) -> Result<Bundle, Memory> {
    let mut all = Bundle::new(alloc, "", &[])?;
    for file in tree {
        let name = file.name.as_str();
        // A bundle takes a name once, and not too many of them.
        if all.get(name).is_none() && all.name_of(MOST_NAMES - 1).is_none() {
            all.add(
                name,
                Held::Bytes(Text::from_slice(alloc, file.text.as_bytes())?),
            )?;
        }
    }
    Ok(all)
}

/// The words of a line.
fn words_of(alloc: Global, line: &str) -> Result<Vec<String>, AllocError> {
    let mut words = Vec::new(alloc);
    for word in line.split_whitespace() {
        words.push(String::from_str(alloc, word)?)?;
    }
    Ok(words)
}

/// The names of a bundle in order, with a blank between two, and `-` before one that is absent.
fn shown(alloc: Global, bundle: &Bundle) -> Result<String, AllocError> {
    let mut text = String::new(alloc);
    for number in 0..u32::MAX {
        let Some(name) = bundle.name_of(number) else {
            return Ok(text);
        };
        if number > 0 {
            text.push(' ')?;
        }
        if matches!(bundle.get(name), Some(Held::Absent)) {
            text.push('-')?;
        }
        text.push_str(name)?;
    }
    Ok(text)
}

/// What gathering answered, as one line: the names of the bundle, or the fault with its name.
fn answer_shown(alloc: Global, answer: &Result<Bundle, GatherFault>) -> Result<String, AllocError> {
    match answer {
        Ok(bundle) => shown(alloc, bundle),
        Err(GatherFault::Read { name }) => named(alloc, "cannot read ", name),
        Err(GatherFault::MainAbsent) => String::from_str(alloc, "no main file"),
        Err(GatherFault::TooBig { name, .. }) => named(alloc, "too big ", name),
        Err(GatherFault::Memory) => Err(AllocError),
    }
}

/// A name after what is said of it.
fn named(alloc: Global, what: &str, name: &Text) -> Result<String, AllocError> {
    let mut text = String::from_str(alloc, what)?;
    text.push_str(str::from_utf8(name.as_slice()).unwrap_or("?"))?;
    Ok(text)
}
