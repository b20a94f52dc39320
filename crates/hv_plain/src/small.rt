//! Small programs.
ghost use Rattle.std.specs.Prelude.{◌≡◌, [], List, length, IfOk, IfSome, IfNone};
ghost use Rattle.hv_plain.specs.Program.{Program, IsProgramText};
ghost use Rattle.hv_plain.specs.Run.{IsOutputOf, run, start, variables_of};

mod reader;

use hv_base::{Config, Memory, Text};
use hv_model::Model;
use std::alloc::Global;

/// The output of the small program that `text` is, its option variables set by `config`. `None`
/// says that the text isn't a small program.
pub fn small_run(
    alloc: Global,
    text: &[u8],
    model: &Model,
    config: &Config,
) -> Result<Option<Text>, Memory>
    requires { length config.now.on ≡ length model.now.names }
    ensures runs { IfOk result (λ answer.
        IfSome answer (IsOutputOf model.now.names config.now.on text.now)) }
    ensures only { IfOk result (λ answer. IfSome answer (λ output.
        (program : Program) → IsProgramText (variables_of model.now.names) text.now program
        → output ≡ (run program (start model.now.names config.now.on) [] 0).output)) }
    ensures refused { IfOk result (λ answer. IfNone answer
        ((program : Program) → ¬ (IsProgramText (variables_of model.now.names) text.now program))) }
{
    reader::read(alloc, text, model, config)
}
