//! Small product lines, and what is left of them in each of their configurations. Expected tokens
//! and places were worked out by hand, by the C standard and docs/FORMATS.md.
mod files;
mod groups;
mod limits;
mod macros;
mod parts;
mod refusals;

ghost use Rattle.std.specs.Prelude.{◌≡◌, All, IfOk, OnOk, length};
ghost use Rattle.hv_base.specs.Bundles.{HasMain};
ghost use Rattle.hv_cond.specs.Diagram.{IsNode};

use super::*;
use hv_base::{Bundle, Config, Held, Memory, Refusal, Text};
use hv_cond::Store;
use hv_ctoks::{ReservedNames, spell};
use hv_model::{Model, ModelRefusal, read_config, read_model, valid_cond};
use hv_toks::{Failing, Parted, Stream, project};
use std::alloc::Global;
use std::process::Abort;
use std::test::Fail;

const NO_OPTION: &str = "";

const ONE_OPTION: &str = "option A\n";

const TWO_OPTIONS: &str = "option A\noption B\n";

const THREE_OPTIONS: &str = "option A\noption B\noption C\n";

/// The model of a text.
fn model_of(alloc: Global, text: &str) -> Result<Model, Memory> {
    match read_model(alloc, text.as_bytes()) {
        Ok(model) => Ok(model),
        Err(ModelRefusal::Bad(_)) => Ok(Model::new(alloc)),
        Err(ModelRefusal::Memory) => Err(Memory),
    }
}

/// Adds a file that isn't there.
fn add_file(alloc: Global, bundle: &mut Bundle, name: &str, text: &str) -> Result<(), Memory>
    ensures { HasMain bundle.old → OnOk result (HasMain bundle.new) }
{
    if bundle.get(name).is_some() || bundle.len() >= 1000 {
        return Err(Memory);
    }
    let bytes = Text::from_slice(alloc, text.as_bytes())?;
    bundle.add(name, Held::Bytes(bytes))?;
    Ok(())
}

/// A bundle of one file, with a folder for headers.
fn main_alone(alloc: Global, name: &str, text: &str) -> Result<Bundle, Memory>
    ensures { IfOk result HasMain }
{
    let mut dirs = Vec::new(alloc);
    dirs.push(String::from_str(alloc, "inc")?)?;
    let mut bundle = Bundle::new(alloc, name, dirs.as_slice())?;
    let bytes = Text::from_slice(alloc, text.as_bytes())?;
    bundle.add(name, Held::Bytes(bytes))?;
    Ok(bundle)
}

/// A bundle of files with their bytes, of which the first is the main one.
fn bundle_of(alloc: Global, files: &[(&str, &str)]) -> Result<Bundle, Memory>
    ensures { IfOk result HasMain }
{
    let [(main, text), headers @ ..] = files else {
        return Err(Memory);
    };
    let mut bundle = main_alone(alloc, main, text)?;
    for (name, text) in headers {
        add_file(alloc, &mut bundle, name, text)?;
    }
    Ok(bundle)
}

/// A configuration; all options off where the text is empty.
fn config_of(alloc: Global, model: &Model, text: &str) -> Result<Config, Memory>
    ensures { IfOk result (λ config. length config.on ≡ length model.now.names) }
{
    match read_config(alloc, model, text) {
        Ok(config) => Ok(config),
        Err(_) => Err(Memory),
    }
}

/// Writes a number and a blank.
fn write_number(alloc: Global, out: &mut Text, number: u64) -> Result<(), Memory> {
    let text = format!(in alloc; "{number} ")?;
    out.extend_from_slice(text.as_bytes())
}

/// Writes a refusal: its cause and its place.
fn write_refusal(alloc: Global, out: &mut Text, entry: &Failing) -> Result<(), Memory> {
    out.extend_from_slice(entry.why.name().as_bytes())?;
    out.extend_from_slice(b" at ")?;
    for offset in entry.place.stack.as_slice() {
        write_number(alloc, out, *offset)?;
        out.extend_from_slice(b"> ")?;
    }
    write_number(alloc, out, u64::from(entry.place.file))?;
    let text = format!(in alloc; ": {}", entry.place.offset)?;
    out.extend_from_slice(text.as_bytes())
}

/// Writes the tokens that a configuration keeps, each after a blank.
fn write_tokens(
    alloc: Global,
    out: &mut Text,
    store: &Store,
    stream: &Stream,
    config: &Config,
) -> Result<(), Memory>
    requires conditions { All (λ token. IsNode store.now token.cond) stream.now }
    requires values { length config.now.on ≡ store.now.variables }
{
    let tokens = project(alloc, store, stream, config)?;
    for (index, token) in tokens.as_slice().iter().enumerate() {
        if index > 0 {
            out.add(b' ')?;
        }
        spell(out, token)?;
    }
    Ok(())
}

/// What a product line comes to in a configuration: its tokens, or its refusal.
fn written(
    alloc: Global,
    store: &Store,
    parted: &Parted<Stream>,
    config: &Config,
) -> Result<Text, Memory>
    requires good { IsNode store.now parted.now.good }
    requires conditions { All (λ token. IsNode store.now token.cond) parted.now.value }
    requires entries { All (λ entry. IsNode store.now entry.cond) parted.now.failing }
    requires values { length config.now.on ≡ store.now.variables }
{
    let mut out = Text::new(alloc);
    for entry in parted.failing.as_slice() {
        if store.eval(entry.cond, config.on.as_slice()) {
            write_refusal(alloc, &mut out, entry)?;
        }
    }
    if store.eval(parted.good, config.on.as_slice()) {
        write_tokens(alloc, &mut out, store, &parted.value, config)?;
    }
    Ok(out)
}

/// What a product line comes to in a configuration.
fn left(alloc: Global, model: &str, files: &[(&str, &str)], config: &str) -> Result<Text, Memory> {
    let model = model_of(alloc, model)?;
    let bundle = bundle_of(alloc, files)?;
    let config = config_of(alloc, &model, config)?;
    let mut store = Store::new(alloc, model.options() as u32)?;
    let valid = valid_cond(&model, &mut store)?;
    let reserved = ReservedNames::Refused;
    match preprocess_all(alloc, &mut store, valid, &bundle, &model, reserved) {
        Ok(parted) => written(alloc, &store, &parted, &config),
        Err(PreFault::TooMany { .. }) => Text::from_slice(alloc, b"too many"),
        Err(PreFault::Memory) => Err(Memory),
    }
}

/// Whether a product line comes to these tokens or this refusal in each of these configurations.
fn assert_left(
    rt: &impl Abort,
    alloc: Global,
    model: &str,
    files: &[(&str, &str)],
    table: &[(&str, &str)],
) -> Result<(), Fail> {
    for (config, tokens) in table {
        let found = left(alloc, model, files, config)?;
        let found = match str::from_utf8(found.as_slice()) {
            Ok(found) => found,
            Err(_) => "no text",
        };
        assert_eq!(rt; found, *tokens);
    }
    Ok(())
}
