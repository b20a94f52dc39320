//! The command `variant`.
ghost use Rattle.std.specs.Prelude.{◌≡◌, List, IfOk, length};
ghost use Rattle.std.specs.String.{string_bytes};
ghost use Rattle.hv_base.specs.Bundles.{HasMain};
ghost use Rattle.hv_outside.specs.Files.{Keeps};
ghost use Rattle.hv_words.specs.Commands.{sources_meant, variant as variant_command};
ghost use Rattle.hv_cli.specs.Due.{IsDueTo};
ghost use Rattle.hv_cli.specs.Files.{reads};
ghost use Rattle.hv_cli.specs.working.Found.{IsVariantAnswer, IsPreprocessedOf};

use crate::answer::Answer;
use crate::options::valid_config;
use crate::position::position_of;
use crate::read::{Gathering, Reading, read_model_file, read_sources};
use hv_base::{Bundle, Config, Memory};
use hv_ctoks::ReservedNames;
use hv_model::{Model, ModelRefusal, print_config, read_model};
use hv_outside::Files;
use hv_print::print_tokens;
use hv_variant::{Variant, variant_of};
use hv_words::Sources;
use std::alloc::Global;

/// The answer that is due to the command `variant` with these sources and this text of a
/// configuration.
pub fn variant<F: Files>(
    alloc: Global,
    files: &mut F,
    sources: &Sources,
    config: &str,
) -> Result<Answer, Memory>
    ensures due { IfOk result (IsDueTo
        (reads (F.state files.old) (F.state files.new))
        (variant_command (sources_meant sources.now) config.now)) }
    ensures keeps { Keeps (F.state files.old) (F.state files.new) }
{
    let model_file = match read_model_file(alloc, files, &sources.model)? {
        Reading::Bytes(bytes) => bytes,
        Reading::Refused(answer) => return Ok(answer),
    };
    match read_sources(alloc, files, sources)? {
        Gathering::Bundle(bundle) => chosen(alloc, model_file.as_slice(), &bundle, config),
        Gathering::Refused(answer) => Ok(answer),
    }
}

/// The answer for the bytes of a model file, a bundle and the text of a configuration.
fn chosen(alloc: Global, model_file: &[u8], bundle: &Bundle, config: &str) -> Result<Answer, Memory>
    requires { HasMain bundle.now }
    ensures { IfOk result (IsPreprocessedOf model_file.now bundle.now config.now) }
{
    let model = match read_model(alloc, model_file) {
        Ok(model) => model,
        Err(ModelRefusal::Bad(fault)) => return Ok(Answer::BadModel(fault)),
        Err(ModelRefusal::Memory) => return Err(Memory),
    };
    match valid_config(alloc, &model, config)? {
        Some(config) => preprocessed(alloc, bundle, &model, &config),
        None => Ok(Answer::BadConfig),
    }
}

/// The answer for a bundle in this configuration of a model: the printed form of the tokens of its
/// variant, or its refusal.
fn preprocessed(
    alloc: Global,
    bundle: &Bundle,
    model: &Model,
    config: &Config,
) -> Result<Answer, Memory>
    requires main { HasMain bundle.now }
    requires config { length config.now.on ≡ length model.now.names }
    ensures { IfOk result (IsVariantAnswer bundle.now model.now config.now.on) }
{
    match variant_of(alloc, bundle, model, config, ReservedNames::Refused)? {
        Variant::Tokens(tokens) => Ok(Answer::Variant(print_tokens(alloc, tokens.as_slice())?)),
        Variant::Refused { place, why } => Ok(Answer::Fails {
            config: print_config(alloc, model, config)?,
            position: position_of(alloc, bundle, &place)?,
            why,
        }),
    }
}
