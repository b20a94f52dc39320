//! Preprocessing that refuses a bundle for its first failing configuration.
ghost use Rattle.std.specs.Prelude.{◌≡◌, true, All, Bool, Decides, List, length, IfErr, IfNone, IfOk, IfSome};
ghost use Rattle.hv_base.specs.Bundles.{HasMain};
ghost use Rattle.hv_cond.specs.Diagram.{AllNodes, IsBefore, IsNode, Keeps, holds};
ghost use Rattle.hv_cond.specs.Parts.{NoneFalse};
ghost use Rattle.hv_preproc.specs.Plain.{plain_of};
ghost use Rattle.hv_preproc.specs.Preprocessed.{HasFewFaces, IsLeft, IsRefusal, StartsAgree};
ghost use Rattle.hv_preproc.specs.working.Leasts.{IsLeastOf};
ghost use Rattle.hv_toks.specs.Division.{conditions};

use crate::fault::PreFault;
use crate::stream::{first_of, preprocess_all};
use hv_base::{Bundle, Config, List, Memory, Refusal};
use hv_cond::{Cond, Store};
use hv_ctoks::ReservedNames;
use hv_model::Model;
use hv_toks::{Failing, Parted, Stream};
use std::alloc::Global;

/// Whether a configuration comes before another one, by its options in order and off before on.
fn is_before(left: &[bool], right: &[bool]) -> bool
    requires { length left.now ≡ length right.now }
    ensures { Decides result (IsBefore left.now right.now) }
{
    left < right
}

/// Whether a configuration comes before the least one so far, if there is any.
fn is_less(values: &[bool], least: &Option<(Config, Failing)>) -> bool
    requires { IfSome least.now (λ found. length values.now ≡ length found.0.on) }
    ensures some { IfSome least.now
        (λ found. Decides result (IsBefore values.now found.0.on)) }
    ensures none { IfNone least.now (result ≡ true) }
{
    match least {
        Some((config, _)) => is_before(values, config.on.as_slice()),
        None => true,
    }
}

/// The entry with the least of all failing configurations, which is given too; `None` where there
/// is no entry.
fn least(
    alloc: Global,
    store: &Store,
    failing: List<Failing>,
) -> Result<Option<(Config, Failing)>, Memory>
    requires nodes { AllNodes store.now (conditions failing) }
    requires possible { NoneFalse store.now (conditions failing) }
    ensures { IfOk result (λ found. IsLeastOf store.now failing found) }
{
    let mut least: Option<(Config, Failing)> = None;
    for entry in failing.into_vec() {
        let config = first_of(alloc, store, entry.cond)?;
        if is_less(config.on.as_slice(), &least) {
            least = Some((config, entry));
        }
    }
    Ok(least)
}

/// What preprocessing leaves of a bundle in every valid configuration. Where some are refused, the
/// refusal of the least of them, by the model's options in order and off before on.
pub fn preprocess(
    alloc: Global,
    store: &mut Store,
    valid: Cond,
    bundle: &Bundle,
    model: &Model,
    reserved: ReservedNames,
) -> Result<Stream, Refusal>
    requires valid { IsNode store.old valid }
    requires variables { store.old.variables ≡ length model.now.names }
    requires main { HasMain bundle.now }
    ensures keeps { Keeps store.old store.new }
    ensures conditions { IfOk result
        (λ stream. All (λ token. IsNode store.new token.cond) stream) }
    ensures left { IfOk result (λ stream. (values : List Bool)
        → length values ≡ store.new.variables → holds store.new valid values ≡ true
        → IsLeft (plain_of bundle.now model.now.names reserved) store.new values stream) }
    ensures starts { IfOk result (λ stream. (values others : List Bool)
        → length values ≡ store.new.variables → length others ≡ store.new.variables
        → holds store.new valid values ≡ true → holds store.new valid others ≡ true
        → StartsAgree (plain_of bundle.now model.now.names reserved) store.new stream
        values others) }
    ensures few { IfOk result (λ stream.
        HasFewFaces (plain_of bundle.now model.now.names reserved) store.new valid) }
    ensures refused { IfErr result
        (IsRefusal (plain_of bundle.now model.now.names reserved) store.new valid) }
{
    let parted = match preprocess_all(alloc, store, valid, bundle, model, reserved) {
        Ok(parted) => parted,
        Err(PreFault::TooMany { place, configs }) => {
            return Err(Refusal::TooMany {
                place,
                index: None,
                configs,
            });
        }
        Err(PreFault::Memory) => return Err(Refusal::Memory),
    };
    let Parted {
        good: _,
        value,
        failing,
    } = parted;
    match least(alloc, store, failing) {
        Ok(None) => Ok(value),
        Ok(Some((config, entry))) => Err(Refusal::Fails {
            config,
            place: entry.place,
            why: entry.why,
        }),
        Err(_) => Err(Refusal::Memory),
    }
}
