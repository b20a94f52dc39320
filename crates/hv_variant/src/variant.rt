//! The variant of one configuration.
ghost use Rattle.std.specs.Prelude.{◌≡◌, Bool, List, length, IfOk, All};
ghost use Rattle.hv_base.specs.Bundles.{HasMain};
ghost use Rattle.hv_cond.specs.Diagram.{IsNode};
ghost use Rattle.hv_cond.specs.declared.conditions.Cond.{Cond};
ghost use Rattle.hv_plainpp.specs.Plainpp.{plainpp};
ghost use Rattle.hv_preproc.specs.Plain.{Plain};
ghost use Rattle.hv_preproc.specs.Preprocessed.{IsLeft, IsRefusedBy};
ghost use Rattle.hv_toks.specs.Division.{Sorts};
ghost use Rattle.hv_variant.specs.Variants.{IsVariantOf};
ghost use Rattle.hv_variant.specs.working.Agreement.{IsOnly};

use crate::only::only;
use hv_base::{Bundle, CTok, Config, List, Memory, Place, Why};
use hv_cond::Store;
use hv_ctoks::ReservedNames;
use hv_model::Model;
use hv_preproc::{PreFault, preprocess_all};
use hv_toks::{Failing, Parted, Stream, project};
use std::alloc::Global;

/// What a bundle is in one configuration.
#[derive(Debug, Drop)]
pub enum Variant {
    /// The tokens of C that preprocessing leaves.
    Tokens(List<CTok>),
    /// Preprocessing refuses it for this cause, first met at this place.
    Refused { place: Place, why: Why },
}

/// What the one configuration has that is divided so.
fn alone(
    alloc: Global,
    store: &Store,
    parted: Parted<Stream>,
    config: &Config,
) -> Result<Variant, Memory>
    requires conditions { All (λ token. IsNode store.now token.cond) parted.value }
    requires values { length config.now.on ≡ store.now.variables }
    ensures { IfOk result (λ variant. (plain : Plain) (valid : Cond)
        → IsOnly store.now valid config.now.on
        → Sorts store.now valid (IsLeft plain store.now) (IsRefusedBy plain) parted
        → IsVariantOf (plain config.now.on) variant) }
{
    let Parted {
        good: _,
        value,
        failing,
    } = parted;
    match failing.into_vec().into_iter().next() {
        Some(
            Failing {
                cond: _,
                place,
                why,
            },
        ) => Ok(Variant::Refused { place, why }),
        None => Ok(Variant::Tokens(project(alloc, store, &value, config)?)),
    }
}

/// What a bundle is in one configuration (ISO/IEC 9899:1999, 5.1.1.2, phases 1 to 7): what
/// preprocessing under all configurations gives where that one alone is asked for. One place has
/// one expansion face there, so there are never too many.
pub fn variant_of(
    alloc: Global,
    bundle: &Bundle,
    model: &Model,
    config: &Config,
    reserved: ReservedNames,
) -> Result<Variant, Memory>
    requires main { HasMain bundle.now }
    requires config { length config.now.on ≡ length model.now.names }
    ensures { IfOk result
        (IsVariantOf (plainpp bundle.now model.now.names config.now.on reserved)) }
{
    let mut store = Store::new(alloc, model.options() as u32)?;
    let valid = only(&mut store, config)?;
    match preprocess_all(alloc, &mut store, valid, bundle, model, reserved) {
        Ok(parted) => alone(alloc, &store, parted, config),
        Err(PreFault::TooMany { .. }) => unreachable!("one configuration has one face at a place"),
        Err(PreFault::Memory) => Err(Memory),
    }
}
