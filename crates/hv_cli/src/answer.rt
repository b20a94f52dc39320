//! What the program answers.
ghost use Rattle.std.specs.Prelude.{◌≡◌, ◌++◌, IfOk, codes};
ghost use Rattle.hv_cli.specs.Answer.{message_of, output_of, shown_cause, shown_position, status_of};

use crate::joined::joined;
use crate::position::Position;
use hv_base::{Memory, Status, Text, Why};
use hv_model::ModelFault;
use itoa::Buffer;
use std::alloc::Global;

/// An answer of the tool.
#[derive(Debug, Drop)]
pub enum Answer {
    /// Status 0: the metaproduct.
    Encoded(Text),
    /// Status 0: the definitions of the option variables.
    Options(Text),
    /// Status 0: the tokens of the variant.
    Variant(Text),
    /// Status 1: in the configuration of this text the source is refused for this cause, at this
    /// position.
    Fails {
        config: Text,
        position: Position,
        why: Why,
    },
    /// Status 2: the arguments are no command.
    BadWords,
    /// Status 2: the text of the configuration means no valid one.
    BadConfig,
    /// Status 3: reading the file of this name failed.
    CannotRead {
        name: Text,
    },
    /// Status 3: there is no file of this name.
    NoFile {
        name: Text,
    },
    /// Status 3: the file has so many bytes, or the sources together have, beyond a limit. `total`
    /// is 0 for the model file.
    TooBig {
        name: Text,
        size: u64,
        total: u64,
    },
    /// Status 7: the model file is refused.
    BadModel(ModelFault),
}

impl Answer {
    /// The exit status of the program.
    pub fn status(&self) -> Status
        ensures { result ≡ status_of self.now }
    {
        match self {
            Answer::Encoded(_) | Answer::Options(_) | Answer::Variant(_) => Status::Done,
            Answer::Fails { .. } => Status::Refused,
            Answer::BadWords | Answer::BadConfig => Status::BadWords,
            Answer::CannotRead { .. } | Answer::NoFile { .. } | Answer::TooBig { .. } => {
                Status::Unread
            }
            Answer::BadModel(_) => Status::BadModel,
        }
    }

    /// The bytes for the output.
    pub fn output(&self) -> &[u8]
        ensures { result.now ≡ output_of self.now }
    {
        match self {
            Answer::Encoded(text) | Answer::Options(text) | Answer::Variant(text) => {
                text.as_slice()
            }
            _ => &[],
        }
    }

    /// The line for the messages, empty for success.
    pub fn message(&self, alloc: Global) -> Result<Text, Memory>
        ensures { IfOk result (λ text. text ≡ message_of self.now) }
    {
        match self {
            Answer::Encoded(_) | Answer::Options(_) | Answer::Variant(_) => Ok(Text::new(alloc)),
            Answer::Fails {
                config,
                position,
                why,
            } => fails_message(alloc, config, position, *why),
            Answer::BadWords => joined(alloc, &[b"hercules: bad words\n".as_slice()]),
            Answer::BadConfig => joined(alloc, &[b"hercules: bad config\n".as_slice()]),
            Answer::CannotRead { name } => file_message(alloc, b"hercules: cannot read ", name),
            Answer::NoFile { name } => file_message(alloc, b"hercules: no file ", name),
            Answer::TooBig { name, size, total } => too_big_message(alloc, name, *size, *total),
            Answer::BadModel(fault) => bad_model_message(alloc, fault),
        }
    }
}

fn file_message(alloc: Global, what: &[u8], name: &Text) -> Result<Text, Memory>
    ensures { IfOk result (λ text. text ≡ what.now ++ name.now ++ codes "\n") }
{
    joined(alloc, &[what, name.as_slice(), b"\n".as_slice()])
}

/// A position in a message.
fn position_in_message(alloc: Global, position: &Position) -> Result<Text, Memory>
    ensures { IfOk result (λ text. text ≡ shown_position position.now) }
{
    let mut line_digits = Buffer::new();
    let mut offset_digits = Buffer::new();
    joined(
        alloc,
        &[
            b" file=".as_slice(),
            position.file.as_slice(),
            b" line=".as_slice(),
            line_digits.format(position.line).as_bytes(),
            b" offset=".as_slice(),
            offset_digits.format(position.offset).as_bytes(),
            b" via=".as_slice(),
            position.via.as_slice(),
        ],
    )
}

/// The cause of a refusal in a message.
fn cause_in_message(alloc: Global, why: Why) -> Result<Text, Memory>
    ensures { IfOk result (λ text. text ≡ shown_cause why) }
{
    let mut digits = Buffer::new();
    joined(
        alloc,
        &[
            b" why=".as_slice(),
            digits.format(why.number()).as_bytes(),
            b" ".as_slice(),
            why.name().as_bytes(),
        ],
    )
}

fn fails_message(
    alloc: Global,
    config: &Text,
    position: &Position,
    why: Why,
) -> Result<Text, Memory>
    ensures { IfOk result (λ text. text ≡ message_of (Answer.Fails config.now position.now why)) }
{
    let position = position_in_message(alloc, position)?;
    let cause = cause_in_message(alloc, why)?;
    joined(
        alloc,
        &[
            b"hercules: fails config=".as_slice(),
            config.as_slice(),
            position.as_slice(),
            cause.as_slice(),
            b"\n".as_slice(),
        ],
    )
}

fn too_big_message(alloc: Global, name: &Text, size: u64, total: u64) -> Result<Text, Memory>
    ensures { IfOk result (λ text. text ≡ message_of (Answer.TooBig name.now size total)) }
{
    let mut size_digits = Buffer::new();
    let mut total_digits = Buffer::new();
    joined(
        alloc,
        &[
            b"hercules: too big ".as_slice(),
            name.as_slice(),
            b" ".as_slice(),
            size_digits.format(size).as_bytes(),
            b" ".as_slice(),
            total_digits.format(total).as_bytes(),
            b"\n".as_slice(),
        ],
    )
}

fn bad_model_message(alloc: Global, fault: &ModelFault) -> Result<Text, Memory>
    ensures { IfOk result (λ text. text ≡ message_of (Answer.BadModel fault.now)) }
{
    let mut line_digits = Buffer::new();
    let mut kind_digits = Buffer::new();
    joined(
        alloc,
        &[
            b"hercules: model line=".as_slice(),
            line_digits.format(fault.line).as_bytes(),
            b" kind=".as_slice(),
            kind_digits.format(fault.kind.number()).as_bytes(),
            b" ".as_slice(),
            fault.kind.name().as_bytes(),
            b"\n".as_slice(),
        ],
    )
}
