//! Work for a clock: preprocesses the file that the second argument names under all configurations
//! of the model that the first one names, with the include folders that the others name, and prints
//! how many tokens and refusals there are.
#![tactic(auto)]

ghost use Rattle.std.specs.Prelude.{IfSome};
ghost use Rattle.hv_base.specs.Bundles.{HasMain};
ghost use Rattle.hv_model.specs.Valid.{IsValidIn};

use hv_base::{Bundle, Memory};
use hv_ctoks::ReservedNames;
use hv_gather::gather;
use hv_model::{ModelDiagram, read_diagram};
use hv_outside::{DirFiles, Files, Got};
use hv_preproc::{PreFault, preprocess_all};
use std::alloc::{AllocError, Global};
use std::process::ExitCode;
use std::{env, io};

/// The diagram of the model file of this name; `None` where it can't be read or is refused.
fn diagram_of<F: Files>(alloc: Global, files: &mut F, name: &str) -> Option<ModelDiagram>
    ensures { IfSome result (λ made. IsValidIn made.model made.store made.valid) }
{
    let Ok(Got::Bytes(bytes)) = files.read(alloc, name) else {
        return None;
    };
    match read_diagram(alloc, bytes.as_slice()) {
        Ok(diagram) => Some(diagram),
        Err(_) => None,
    }
}

/// What preprocessing gave, as one line.
fn report(alloc: Global, diagram: ModelDiagram, bundle: &Bundle) -> Result<String, AllocError>
    requires valid { IsValidIn diagram.model diagram.store diagram.valid }
    requires main { HasMain bundle.now }
{
    let ModelDiagram {
        model,
        mut store,
        valid,
    } = diagram;
    match preprocess_all(
        alloc,
        &mut store,
        valid,
        bundle,
        &model,
        ReservedNames::Refused,
    ) {
        Ok(parted) => {
            let tokens = parted.value.len();
            let refusals = parted.failing.len();
            format!(in alloc; "{tokens} tokens, {refusals} refusals")
        }
        Err(PreFault::TooMany { .. }) => String::from_str(alloc, "too many faces"),
        Err(PreFault::Memory) => Err(AllocError),
    }
}

fn main(rt: HostRuntime) -> io::Result<ExitCode> {
    let alloc = rt.alloc();
    let words: Vec<String> = env::args(&rt)?.skip(1).collect(alloc)?;
    let [model, main, dirs @ ..] = words.as_slice() else {
        eprintln!(rt; "name a model and a file")?;
        return Ok(ExitCode::from(2));
    };
    let mut files = DirFiles::new(&rt);
    let Some(diagram) = diagram_of(alloc, &mut files, model.as_str()) else {
        eprintln!(rt; "there is no such model")?;
        return Ok(ExitCode::from(2));
    };
    let Ok(bundle) = gather(alloc, &mut files, main.as_str(), dirs) else {
        eprintln!(rt; "the file can't be gathered")?;
        return Ok(ExitCode::from(2));
    };
    let line = report(alloc, diagram, &bundle)?;
    println!(rt; "{line}")?;
    Ok(ExitCode::SUCCESS)
}
