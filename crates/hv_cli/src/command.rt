//! From the words to the answer that is due to them.
ghost use Rattle.std.specs.Prelude.{◌≡◌, None, Some, IfOk, map};
ghost use Rattle.std.specs.String.{string_bytes};
ghost use Rattle.hv_outside.specs.Files.{Keeps};
ghost use Rattle.hv_words.specs.Commands.{Command as CommandMeant, command_of};
ghost use Rattle.hv_cli.specs.Due.{IsDue};
ghost use Rattle.hv_cli.specs.Files.{HasNoFile, IsUntouched, reads};

use crate::answer::Answer;
use crate::encode::encode;
use crate::options::options;
use crate::variant::variant;
use hv_base::Memory;
use hv_outside::Files;
use hv_words::{Command, read_words};
use std::alloc::Global;

/// The answer that is due to the arguments of the program.
pub fn answer_to<F: Files>(alloc: Global, words: &[String], files: &mut F) -> Result<Answer, Memory>
    ensures due { IfOk result (IsDue
        (reads (F.state files.old) (F.state files.new))
        (map string_bytes words.now)) }
    ensures keeps { Keeps (F.state files.old) (F.state files.new) }
    ensures untouched { (command_of (map string_bytes words.now) ≡ None) → IsUntouched
        (reads (F.state files.old) (F.state files.new)) }
    ensures no_file { (command : CommandMeant)
        → command_of (map string_bytes words.now) ≡ Some command → HasNoFile command
        → IsUntouched (reads (F.state files.old) (F.state files.new)) }
{
    match read_words(alloc, words)? {
        Some(Command::Encode(sources)) => encode(alloc, files, &sources),
        Some(Command::Variant { sources, config }) => {
            variant(alloc, files, &sources, config.as_str())
        }
        Some(Command::Options { model, config }) => options(alloc, files, &model, config.as_str()),
        None => Ok(Answer::BadWords),
    }
}
