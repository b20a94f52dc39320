//! The command `options`.
ghost use Rattle.std.specs.Prelude.{◌≡◌, ◌++◌, ℕ, Bool, List, None, IfOk, OnOk, IfSome, IfNone, cond, codes, length, option_map};
ghost use Rattle.std.specs.String.{string_bytes};
ghost use Rattle.hv_outside.specs.Files.{Keeps};
ghost use Rattle.hv_words.specs.Commands.{options as options_command};
ghost use Rattle.hv_cli.specs.Definitions.{IsConfig, definition_of, definitions_of};
ghost use Rattle.hv_cli.specs.Due.{IsDueTo};
ghost use Rattle.hv_cli.specs.Files.{IsUntouched, reads};
ghost use Rattle.hv_cli.specs.working.Found.{IsDefinedOf};

use crate::answer::Answer;
use crate::read::{Reading, read_model_file};
use hv_base::{Config, Memory, Text};
use hv_model::{ConfigFault, Model, ModelRefusal, is_valid, read_config, read_model};
use hv_outside::Files;
use std::alloc::Global;

/// The answer that is due to the command `options` with the model file of this name and this text
/// of a configuration.
pub fn options<F: Files>(
    alloc: Global,
    files: &mut F,
    model: &Option<String>,
    config: &str,
) -> Result<Answer, Memory>
    ensures due { IfOk result (IsDueTo
        (reads (F.state files.old) (F.state files.new))
        (options_command (option_map string_bytes model.now) config.now)) }
    ensures keeps { Keeps (F.state files.old) (F.state files.new) }
    ensures untouched { option_map string_bytes model.now ≡ None
        → IsUntouched (reads (F.state files.old) (F.state files.new)) }
{
    match read_model_file(alloc, files, model)? {
        Reading::Bytes(bytes) => defined(alloc, bytes.as_slice(), config),
        Reading::Refused(answer) => Ok(answer),
    }
}

/// The answer for the bytes of a model file and the text of a configuration.
fn defined(alloc: Global, model_file: &[u8], config: &str) -> Result<Answer, Memory>
    ensures { IfOk result (IsDefinedOf model_file.now config.now) }
{
    let model = match read_model(alloc, model_file) {
        Ok(model) => model,
        Err(ModelRefusal::Bad(fault)) => return Ok(Answer::BadModel(fault)),
        Err(ModelRefusal::Memory) => return Err(Memory),
    };
    match valid_config(alloc, &model, config)? {
        Some(config) => Ok(Answer::Options(definitions(alloc, &model, &config)?)),
        None => Ok(Answer::BadConfig),
    }
}

/// The valid configuration that the text means; `None` where it means none.
pub(crate) fn valid_config(
    alloc: Global,
    model: &Model,
    text: &str,
) -> Result<Option<Config>, Memory>
    ensures some { IfOk result
        (λ found. IfSome found (λ config. IsConfig model.now text.now config.on)) }
    ensures none { IfOk result (λ found. IfNone found
        ((values : List Bool) → ¬ (IsConfig model.now text.now values))) }
{
    match read_config(alloc, model, text) {
        Ok(config) if is_valid(model, &config) => Ok(Some(config)),
        Ok(_) => Ok(None),
        Err(ConfigFault::Unknown { .. } | ConfigFault::Repeated { .. }) => Ok(None),
        Err(ConfigFault::Memory) => Err(Memory),
    }
}

/// A definition of each option's variable, as the configuration has it.
fn definitions(alloc: Global, model: &Model, config: &Config) -> Result<Text, Memory>
    requires { length config.now.on ≡ length model.now.names }
    ensures { IfOk result (λ text. text ≡ definitions_of model.now.names config.now.on) }
{
    let mut text = Text::new(alloc);
    for i in 0..model.options() {
        add_definition(&mut text, model.name(i), config.is_on(i))?;
    }
    Ok(text)
}

/// Adds the definition of the variable of the option of this name.
fn add_definition(text: &mut Text, name: &str, is_on: bool) -> Result<(), Memory>
    ensures { OnOk result (text.new ≡ text.old ++ definition_of name.now is_on) }
{
    text.extend_from_slice(b"int hv_opt_")?;
    text.extend_from_slice(name.as_bytes())?;
    text.extend_from_slice(if is_on { b" = 1;\n" } else { b" = 0;\n" })
}
