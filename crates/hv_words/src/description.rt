//! What `clap` is told of each command. The first word, the command's name, stands in the place of
//! a program's name.
ghost use Rattle.std.specs.Prelude.{◌≡◌, IfOk};
ghost use Rattle.clap.specs.Words.{app_of};
ghost use Rattle.hv_words.specs.Descriptions.{encode, options, variant};

use clap::{Arg, Command};
use hv_base::Memory;
use std::alloc::Global;

/// `encode --model M -I DIRS FILE`
pub(crate) fn encode<'a>(alloc: Global) -> Result<Command<'a>, Memory>
    ensures { IfOk result (λ command. app_of command ≡ encode) }
{
    let model = Arg::new(alloc, "model").long("model");
    let dirs = Arg::new(alloc, "dirs").short('I');
    let file = Arg::new(alloc, "file").required(true);
    let command = Command::new(alloc, "encode")
        .arg(model)?
        .arg(dirs)?
        .arg(file)?;
    Ok(command)
}

/// `variant --model M -I DIRS --config K FILE`
pub(crate) fn variant<'a>(alloc: Global) -> Result<Command<'a>, Memory>
    ensures { IfOk result (λ command. app_of command ≡ variant) }
{
    let model = Arg::new(alloc, "model").long("model");
    let dirs = Arg::new(alloc, "dirs").short('I');
    let config = Arg::new(alloc, "config").long("config");
    let file = Arg::new(alloc, "file").required(true);
    let command = Command::new(alloc, "variant")
        .arg(model)?
        .arg(dirs)?
        .arg(config)?
        .arg(file)?;
    Ok(command)
}

/// `options --model M --config K`
pub(crate) fn options<'a>(alloc: Global) -> Result<Command<'a>, Memory>
    ensures { IfOk result (λ command. app_of command ≡ options) }
{
    let model = Arg::new(alloc, "model").long("model");
    let config = Arg::new(alloc, "config").long("config");
    let command = Command::new(alloc, "options").arg(model)?.arg(config)?;
    Ok(command)
}
