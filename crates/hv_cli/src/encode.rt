//! The command `encode`.
ghost use Rattle.std.specs.Prelude.{◌≡◌, Bool, List, IfOk};
ghost use Rattle.std.specs.String.{string_bytes};
ghost use Rattle.hv_outside.specs.Files.{Keeps};
ghost use Rattle.hv_model.specs.Rule.{IsValid};
ghost use Rattle.hv_model.specs.Valid.{IsValidIn};
ghost use Rattle.hv_words.specs.Commands.{encode as encode_command, sources_meant};
ghost use Rattle.hv_cli.specs.Due.{IsDueTo};
ghost use Rattle.hv_cli.specs.Files.{reads};
ghost use Rattle.hv_cli.specs.working.Found.{IsEncodedOf, IsLeftOutOf};

use crate::answer::Answer;
use crate::position::start_of;
use crate::read::{Reading, Role, read_file, read_model_file};
use hv_base::{Memory, Why};
use hv_encode::encode_small;
use hv_model::{ModelDiagram, ModelRefusal, print_config, read_diagram};
use hv_outside::Files;
use hv_words::Sources;
use std::alloc::Global;

/// The answer that is due to the command `encode` with these sources. A small source includes
/// nothing, so no folder is looked into.
pub fn encode<F: Files>(alloc: Global, files: &mut F, sources: &Sources) -> Result<Answer, Memory>
    ensures due { IfOk result (IsDueTo
        (reads (F.state files.old) (F.state files.new))
        (encode_command (sources_meant sources.now))) }
    ensures keeps { Keeps (F.state files.old) (F.state files.new) }
{
    let model_file = match read_model_file(alloc, files, &sources.model)? {
        Reading::Bytes(bytes) => bytes,
        Reading::Refused(answer) => return Ok(answer),
    };
    let file = sources.file.as_str();
    let source = match read_file(alloc, files, file, Role::Main)? {
        Reading::Bytes(bytes) => bytes,
        Reading::Refused(answer) => return Ok(answer),
    };
    metaproduct(alloc, model_file.as_slice(), source.as_slice(), file)
}

/// The answer for the bytes of a model file and of a main file of this name.
fn metaproduct(
    alloc: Global,
    model_file: &[u8],
    source: &[u8],
    main: &str,
) -> Result<Answer, Memory>
    ensures { IfOk result (IsEncodedOf model_file.now source.now main.now) }
{
    let mut diagram = match read_diagram(alloc, model_file) {
        Ok(diagram) => diagram,
        Err(ModelRefusal::Bad(fault)) => return Ok(Answer::BadModel(fault)),
        Err(ModelRefusal::Memory) => return Err(Memory),
    };
    match encode_small(alloc, &mut diagram, source)? {
        Some(text) => Ok(Answer::Encoded(text)),
        None => left_out(alloc, &diagram, main),
    }
}

/// The answer for a main file of this name that isn't a small source.
fn left_out(alloc: Global, diagram: &ModelDiagram, main: &str) -> Result<Answer, Memory>
    requires valid { IsValidIn diagram.now.model diagram.now.store diagram.now.valid }
    requires configuration { (values : List Bool) × IsValid diagram.now.model values }
    ensures { IfOk result (IsLeftOutOf diagram.now.model main.now) }
{
    let Some(config) = diagram.least()? else {
        unreachable!("a model has a valid configuration");
    };
    Ok(Answer::Fails {
        config: print_config(alloc, &diagram.model, &config)?,
        position: start_of(alloc, main)?,
        why: Why::LeftOut,
    })
}
