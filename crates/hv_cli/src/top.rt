//! The top call.
ghost use Rattle.std.specs.Prelude.{◌≡◌, ◌≤◌, Bool, List, ℕ, Option, Some, None, IsTrue, map};
ghost use Rattle.std.specs.String.{string_bytes};
ghost use Rattle.hv_base.specs.Bundles.{NamedFiles};
ghost use Rattle.hv_base.specs.Status.{code_of};
ghost use Rattle.hv_base.specs.declared.place.Place.{Place};
ghost use Rattle.hv_base.specs.declared.token.CTok.{CTok};
ghost use Rattle.hv_base.specs.declared.why.Why.{Why};
ghost use Rattle.hv_model.specs.Config.{text_of};
ghost use Rattle.hv_model.specs.declared.faults.ModelFault.{ModelFault};
ghost use Rattle.hv_model.specs.declared.faults.ModelKind.{ModelKind};
ghost use Rattle.hv_model.specs.Lines.{Says, fault};
ghost use Rattle.hv_model.specs.Model.{IsModelOf};
ghost use Rattle.hv_model.specs.Rule.{Features};
ghost use Rattle.hv_outside.specs.Files.{Keeps};
ghost use Rattle.hv_plain.specs.Source.{SourceLine, IsSmallSource};
ghost use Rattle.hv_plainpp.specs.Reading.{refused};
ghost use Rattle.hv_print.specs.Shown.{shown};
ghost use Rattle.hv_variant.specs.Variants.{HasTokens};
ghost use Rattle.hv_words.specs.Commands.{Command, Sources, command_of, encode, options, variant};
ghost use Rattle.hv_cli.specs.declared.answer.Answer.{Answer};
ghost use Rattle.hv_cli.specs.declared.position.Position.{Position};
ghost use Rattle.hv_cli.specs.Definitions.{IsConfig, definitions_of};
ghost use Rattle.hv_cli.specs.Due.{variant_of};
ghost use Rattle.hv_cli.specs.Files.{HasNoFile, IsUntouched, config_text, reads};
ghost use Rattle.hv_cli.specs.Given.{writes};
ghost use Rattle.hv_cli.specs.Ends.{Answers, AnswersOrFails, AreRead, AreTold, Ends, Fails, Headline, IsFirstUnusable, IsGood, IsOrFails, Starves, Succeeds, Unread};
ghost use Rattle.hv_cli.specs.Positions.{position_of};

use crate::command::answer_to;
use crate::write::{report_out_of_memory, write_answer};
use hv_base::{Memory, Status};
use hv_outside::{Files, Sink, Source};
use std::alloc::Global;

/// The program: `words` are its arguments, after its name, and the answer is its status.
///
/// `encode` reads a model file, if one is named, and a source from `files`, and writes the
/// metaproduct to `out`. `variant` reads a model file, if one is named, and a source with all its
/// headers, and writes to `out` the tokens that preprocessing leaves in a given configuration.
/// `options` reads a model file, if one is named, and writes to `out` a definition of each option
/// variable, for a given configuration. Every other end has its message on `err`. `input` is there
/// for the commands that run programs.
pub fn hercules<F: Files, I: Source, O: Sink, E: Sink>(
    alloc: Global,
    words: &[String],
    files: &mut F,
    input: &mut I,
    out: &mut O,
    err: &mut E,
) -> u8
    // The bytes that `encode` writes are one program that runs as every variant does.
    ensures headline { (sources : Sources)
        → command_of (map string_bytes words.now) ≡ Some (encode sources)
        → result ≡ code_of Status.Done → IsTrue (F.state files.old).told
        → Headline sources (F.state files.old).held (O.state out.old).written
        (O.state out.new).written }

    // Each status has its cause, and what `out` and `err` got.
    ensures encoded { (sources : Sources)
        → command_of (map string_bytes words.now) ≡ Some (encode sources)
        → result ≡ code_of Status.Done
        → (text : List ℕ) × Answers (map string_bytes words.now)
        (reads (F.state files.old) (F.state files.new))
        (writes (O.state out.old) (O.state out.new) (E.state err.old) (E.state err.new))
        result (Answer.Encoded text) }
    ensures variant { (sources : Sources) (config : List ℕ)
        → command_of (map string_bytes words.now) ≡ Some (variant sources config)
        → result ≡ code_of Status.Done
        → (text : List ℕ) × Answers (map string_bytes words.now)
        (reads (F.state files.old) (F.state files.new))
        (writes (O.state out.old) (O.state out.new) (E.state err.old) (E.state err.new))
        result (Answer.Variant text) }
    ensures options { (model : Option (List ℕ)) (config : List ℕ)
        → command_of (map string_bytes words.now) ≡ Some (options model config)
        → result ≡ code_of Status.Done
        → (text : List ℕ) × Answers (map string_bytes words.now)
        (reads (F.state files.old) (F.state files.new))
        (writes (O.state out.old) (O.state out.new) (E.state err.old) (E.state err.new))
        result (Answer.Options text) }
    ensures refused { result ≡ code_of Status.Refused
        → (config : List ℕ) × (position : Position) × (why : Why)
        × Answers (map string_bytes words.now)
        (reads (F.state files.old) (F.state files.new))
        (writes (O.state out.old) (O.state out.new) (E.state err.old) (E.state err.new))
        result (Answer.Fails config position why) }
    ensures bad_words { command_of (map string_bytes words.now) ≡ None
        → result ≡ code_of Status.BadWords → Answers (map string_bytes words.now)
        (reads (F.state files.old) (F.state files.new))
        (writes (O.state out.old) (O.state out.new) (E.state err.old) (E.state err.new))
        result Answer.BadWords }
    ensures bad_config { (command : Command)
        → command_of (map string_bytes words.now) ≡ Some command
        → result ≡ code_of Status.BadWords → Answers (map string_bytes words.now)
        (reads (F.state files.old) (F.state files.new))
        (writes (O.state out.old) (O.state out.new) (E.state err.old) (E.state err.new))
        result Answer.BadConfig }
    ensures unread { result ≡ code_of Status.Unread → Unread (map string_bytes words.now)
        (reads (F.state files.old) (F.state files.new))
        (writes (O.state out.old) (O.state out.new) (E.state err.old) (E.state err.new))
        result }
    ensures unwritten { result ≡ code_of Status.Unwritten → Fails (map string_bytes words.now)
        (reads (F.state files.old) (F.state files.new))
        (writes (O.state out.old) (O.state out.new) (E.state err.old) (E.state err.new))
        result }
    ensures starved { result ≡ code_of Status.Memory → Starves (map string_bytes words.now)
        (reads (F.state files.old) (F.state files.new))
        (writes (O.state out.old) (O.state out.new) (E.state err.old) (E.state err.new))
        result }
    ensures bad_model { result ≡ code_of Status.BadModel → (found : ModelFault)
        × Answers (map string_bytes words.now)
        (reads (F.state files.old) (F.state files.new))
        (writes (O.state out.old) (O.state out.new) (E.state err.old) (E.state err.new))
        result (Answer.BadModel found) }
    ensures ends { Ends (map string_bytes words.now)
        (reads (F.state files.old) (F.state files.new))
        (writes (O.state out.old) (O.state out.new) (E.state err.old) (E.state err.new))
        result }

    // With refused words, or a command without files, no read fails or finds no file; nothing reads
    // the input. The files hold and tell what they did, and no count falls, so that a further call
    // can follow.
    ensures refused_words { command_of (map string_bytes words.now) ≡ None
        → IsOrFails Status.BadWords result }
    ensures untouched { command_of (map string_bytes words.now) ≡ None
        → IsUntouched (reads (F.state files.old) (F.state files.new)) }
    ensures no_file { (command : Command)
        → command_of (map string_bytes words.now) ≡ Some command → HasNoFile command
        → IsUntouched (reads (F.state files.old) (F.state files.new)) }
    ensures input { input.new ≡ input.old }
    ensures keeps { Keeps (F.state files.old) (F.state files.new) }
    ensures out_faults { (O.state out.old).faults ≤ (O.state out.new).faults }
    ensures err_faults { (E.state err.old).faults ≤ (E.state err.new).faults }

    // Where files tell what they hold and none failed, the cause of a status brings it about.
    ensures unread_where { (command : Command) (blamed : Answer)
        → command_of (map string_bytes words.now) ≡ Some command
        → IsFirstUnusable (reads (F.state files.old) (F.state files.new)) command blamed
        → AnswersOrFails (map string_bytes words.now)
        (reads (F.state files.old) (F.state files.new))
        (writes (O.state out.old) (O.state out.new) (E.state err.old) (E.state err.new))
        result blamed }
    ensures bad_model_where { (command : Command) (model_file source : List ℕ) (line : ℕ)
        (kind : ModelKind)
        → command_of (map string_bytes words.now) ≡ Some command
        → AreRead (reads (F.state files.old) (F.state files.new)) command model_file source
        → Says model_file (fault line kind) → IsOrFails Status.BadModel result }
    ensures bad_config_where { (command : Command) (text model_file source : List ℕ)
        (model : Features)
        → command_of (map string_bytes words.now) ≡ Some command
        → config_text command ≡ Some text
        → AreRead (reads (F.state files.old) (F.state files.new)) command model_file source
        → IsModelOf model_file model
        → ((values : List Bool) → ¬ (IsConfig model text values))
        → AnswersOrFails (map string_bytes words.now)
        (reads (F.state files.old) (F.state files.new))
        (writes (O.state out.old) (O.state out.new) (E.state err.old) (E.state err.new))
        result Answer.BadConfig }
    ensures left_out_where { (sources : Sources) (model_file source : List ℕ) (model : Features)
        → command_of (map string_bytes words.now) ≡ Some (encode sources)
        → AreRead (reads (F.state files.old) (F.state files.new)) (encode sources) model_file source
        → IsModelOf model_file model → ((body : List SourceLine)
        → ¬ (IsSmallSource model.names source body))
        → IsOrFails Status.Refused result }
    ensures variant_where { (sources : Sources) (text model_file source : List ℕ)
        (model : Features) (values : List Bool) (bundle : NamedFiles) (toks : List CTok)
        → command_of (map string_bytes words.now) ≡ Some (variant sources text)
        → AreRead (reads (F.state files.old) (F.state files.new)) (variant sources text) model_file
        source
        → AreTold (F.state files.old).held sources bundle
        → IsModelOf model_file model → IsConfig model text values
        → HasTokens (variant_of bundle model values) toks
        → AnswersOrFails (map string_bytes words.now)
        (reads (F.state files.old) (F.state files.new))
        (writes (O.state out.old) (O.state out.new) (E.state err.old) (E.state err.new))
        result (Answer.Variant (shown toks)) }
    ensures refused_where { (sources : Sources) (text model_file source : List ℕ)
        (model : Features) (values : List Bool) (bundle : NamedFiles) (place : Place) (why : Why)
        → command_of (map string_bytes words.now) ≡ Some (variant sources text)
        → AreRead (reads (F.state files.old) (F.state files.new)) (variant sources text) model_file
        source
        → AreTold (F.state files.old).held sources bundle
        → IsModelOf model_file model → IsConfig model text values
        → (variant_of bundle model values).ending ≡ refused why place
        → AnswersOrFails (map string_bytes words.now)
        (reads (F.state files.old) (F.state files.new))
        (writes (O.state out.old) (O.state out.new) (E.state err.old) (E.state err.new))
        result
        (Answer.Fails (text_of model.names values) (position_of bundle place) why) }
    ensures complete { IsGood (map string_bytes words.now)
        (reads (F.state files.old) (F.state files.new))
        (writes (O.state out.old) (O.state out.new) (E.state err.old) (E.state err.new))
        → Succeeds (map string_bytes words.now)
        (reads (F.state files.old) (F.state files.new))
        (writes (O.state out.old) (O.state out.new) (E.state err.old) (E.state err.new))
        result }
    ensures complete_options { (name : Option (List ℕ)) (text model_file source : List ℕ)
        (model : Features) (values : List Bool)
        → command_of (map string_bytes words.now) ≡ Some (options name text)
        → AreRead (reads (F.state files.old) (F.state files.new)) (options name text) model_file
        source
        → IsModelOf model_file model → IsConfig model text values
        → AnswersOrFails (map string_bytes words.now)
        (reads (F.state files.old) (F.state files.new))
        (writes (O.state out.old) (O.state out.new) (E.state err.old) (E.state err.new))
        result (Answer.Options (definitions_of model.names values)) }
{
    let _ = input;
    match answer_to(alloc, words, files) {
        Ok(answer) => Status::code(&write_answer(alloc, &answer, out, err)),
        Err(Memory) => Status::code(&report_out_of_memory(err)),
    }
}
