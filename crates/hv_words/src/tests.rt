//! Words, and the commands that they give.
use super::*;
use hv_base::Memory;
use std::alloc::Global;
use std::test::Fail;

/// The words that spaces set apart; `_` is the empty word.
fn words(alloc: Global, text: &str) -> Result<Vec<String>, Memory> {
    let mut words = Vec::new(alloc);
    for word in text.split_whitespace() {
        let word = if word == "_" { "" } else { word };
        words.push(String::from_str(alloc, word)?)?;
    }
    Ok(words)
}

fn or_dash(text: &Option<String>) -> &str {
    match text {
        Some(text) => text.as_str(),
        None => "-",
    }
}

fn add_sources(line: &mut String, sources: &Sources) -> Result<(), Memory> {
    line.push_str(" ")?;
    line.push_str(or_dash(&sources.model))?;
    line.push_str(" ")?;
    line.push_str(sources.file.as_str())?;
    for dir in &sources.dirs {
        line.push_str(" ")?;
        line.push_str(dir.as_str())?;
    }
    Ok(())
}

/// A command in one line: its name, the model or `-`, the main file, the folders, and after `:` the
/// configuration.
fn line(alloc: Global, command: &Option<Command>) -> Result<String, Memory> {
    let mut line = String::new(alloc);
    match command {
        None => line.push_str("none")?,
        Some(Command::Encode(sources)) => {
            line.push_str("encode")?;
            add_sources(&mut line, sources)?;
        }
        Some(Command::Variant { sources, config }) => {
            line.push_str("variant")?;
            add_sources(&mut line, sources)?;
            line.push_str(" :")?;
            line.push_str(config.as_str())?;
        }
        Some(Command::Options { model, config }) => {
            line.push_str("options ")?;
            line.push_str(or_dash(model))?;
            line.push_str(" :")?;
            line.push_str(config.as_str())?;
        }
    }
    Ok(line)
}

#[test]
fn words_give_their_command(rt: HostRuntime) -> Result<(), Fail> {
    let alloc = rt.alloc();
    for (given, wanted) in [
        ("", "none"),
        ("encode", "none"),
        ("Encode main.c", "none"),
        ("help main.c", "none"),
        ("encode main.c", "encode - main.c"),
        ("encode --model m main.c", "encode m main.c"),
        ("encode main.c --model=m -Id:e", "encode m main.c d e"),
        ("encode m main.c", "none"),
        ("encode --config A main.c", "none"),
        ("variant -I d -I e main.c", "none"),
        ("variant -I d: main.c", "none"),
        ("variant -I _ main.c", "none"),
        ("variant -- -x.c", "variant - -x.c :"),
        (
            "variant --model m --config A,B main.c",
            "variant m main.c :A,B",
        ),
        ("variant --model m --config _ main.c", "variant m main.c :"),
        ("variant main.c --model", "none"),
        ("variant --mod m main.c", "none"),
        ("variant --help", "none"),
        ("options", "options - :"),
        ("options --model m --config=A", "options m :A"),
        ("options main.c", "none"),
    ] {
        let words = words(alloc, given)?;
        let command = read_words(alloc, words.as_slice())?;
        let found = line(alloc, &command)?;
        assert_eq!(rt; found.as_str(), wanted, "{given}");
    }
    Ok(())
}

#[test]
fn fifty_folders_are_as_many_as_may_be(rt: HostRuntime) -> Result<(), Fail> {
    let alloc = rt.alloc();
    let mut folders = String::from_str(alloc, "encode main.c -Id")?;
    for count in 2..=51u32 {
        folders.push_str(":d")?;
        let words = words(alloc, folders.as_str())?;
        let command = read_words(alloc, words.as_slice())?;
        let is_command = matches!(command, Some(Command::Encode(_)));
        assert_eq!(rt; is_command, count <= 50, "{count} folders");
    }
    Ok(())
}
