//! Preprocessing of a bundle under all configurations.
ghost use Rattle.std.specs.Prelude.{◌≡◌, ◌∷◌, [], true, ℕ, All, Bool, List, length, IfErr, IfOk, OnOk};
ghost use Rattle.hv_base.specs.Bundles.{HasMain};
ghost use Rattle.hv_cond.specs.Diagram.{AllNodes, IsLeast, IsNever, IsNode, Keeps, holds};
ghost use Rattle.hv_cond.specs.Parts.{NoneFalse};
ghost use Rattle.hv_cond.specs.declared.conditions.Cond.{Cond as CondOf};
ghost use Rattle.hv_given.specs.Refusals.{AreRefusals};
ghost use Rattle.hv_model.specs.Beginning.{beginning};
ghost use Rattle.hv_plainpp.specs.Preprocessing.{unit as unit_of};
ghost use Rattle.hv_preproc.specs.Plain.{parts_of, plain_of};
ghost use Rattle.hv_preproc.specs.Preprocessed.{AreTooManyAt, HasFewFaces, IfTooMany, IsLeft, IsRefusedBy, StartsAgree};
ghost use Rattle.hv_preproc.specs.working.Faults.{IfStops};
ghost use Rattle.hv_preproc.specs.working.Firsts.{AreFirst};
ghost use Rattle.hv_preproc.specs.working.Parts.{ArePages};
ghost use Rattle.hv_preproc.specs.working.Walk.{IsSound, IsUnit, IsUpTo, Reads, ShowsTooMany, SoFar, Stops};
ghost use Rattle.hv_preproc.specs.working.Wholes.{CanHold, CountsBoth, IsFaultOf, RefusesBoth, StartsAgreeIn, parts_in};
ghost use Rattle.hv_texts.specs.Readings.{conditions_of};
ghost use Rattle.hv_toks.specs.Division.{Sorts, conditions};
ghost use Rattle.hv_toks.specs.MacroState.{entries_of};

use crate::fault::{PreFault, WalkFault};
use crate::page::Pages;
use crate::source::Sources;
use crate::unit::Unit;
use crate::walk::read_file;
use hv_base::{Bundle, Config, List, MOST_INCLUDES, Memory};
use hv_cond::{Cond, Store};
use hv_cstream::{convert_all, join_strings};
use hv_ctoks::ReservedNames;
use hv_given::Refusals;
use hv_macros::MacroTable;
use hv_model::Model;
use hv_toks::{Failing, Parted, Stream};
use std::alloc::Global;

/// The first configuration of a condition; all options off where it has none.
pub(crate) fn first_of(alloc: Global, store: &Store, cond: Cond) -> Result<Config, Memory>
    requires node { IsNode store.now cond }
    requires possible { ¬ IsNever store.now cond }
    ensures { IfOk result (λ config. IsLeast store.now cond config.on) }
{
    match store.pick(cond)? {
        Some(values) => Ok(Config {
            on: List::from_vec(values),
        }),
        None => Ok(Config {
            on: List::new(alloc),
        }),
    }
}

/// One configuration of each condition.
fn first_of_each(alloc: Global, store: &Store, conds: &[Cond]) -> Result<List<Config>, Memory>
    requires nodes { AllNodes store.now conds.now }
    requires possible { NoneFalse store.now conds.now }
    ensures { IfOk result (λ configs. AreFirst store.now conds.now configs) }
{
    let mut configs = List::new(alloc);
    for cond in conds {
        let config = first_of(alloc, store, *cond)?;
        configs.add(config)?;
    }
    Ok(configs)
}

/// The fault of preprocessing that a fault of the walk is: its conditions become their first
/// configurations.
fn fault_of(alloc: Global, store: &Store, fault: WalkFault) -> PreFault
    requires possible { IfStops (CanHold store.now) fault }
    ensures { IsFaultOf store.now fault result }
{
    match fault {
        WalkFault::TooMany { place, conds } => {
            match first_of_each(alloc, store, conds.as_slice()) {
                Ok(configs) => PreFault::TooMany { place, configs },
                Err(_) => PreFault::Memory,
            }
        }
        WalkFault::Memory => PreFault::Memory,
    }
}

/// Reads the main file of a bundle, in the configurations of `valid`, into a unit of which nothing
/// is read.
fn read_main(
    alloc: Global,
    store: &mut Store,
    unit: &mut Unit,
    pages: &Pages<'_>,
    valid: Cond,
) -> Result<(), WalkFault>
    requires valid { IsNode store.old valid }
    requires sound { IsSound store.old unit.old (0 ∷ []) }
    requires pages { ArePages pages.now }
    requires main { HasMain pages.now.bundle.now }
    ensures keeps { Keeps store.old store.new }
    ensures unit { OnOk result (IsUnit store.new unit.new) }
    ensures read { OnOk result ((there : List ℕ)
        × Reads store.old store.new unit.old unit.new (0 ∷ []) there valid
        (λ values macros. unit_of pages.now.bundle.now macros)) }
    ensures stops { IfErr result (IfStops (λ place conds.
        Stops store.old store.new unit.old (0 ∷ []) valid
        (λ values macros. unit_of pages.now.bundle.now macros) place conds)) }
{
    let stack = List::new(alloc);
    match pages.numbered(0) {
        Some(main) => read_file(alloc, store, unit, pages, main, stack, valid, MOST_INCLUDES),
        None => Ok(()),
    }
}

/// The translation unit of a bundle in the configurations of `valid`.
fn read_unit(
    alloc: Global,
    store: &mut Store,
    valid: Cond,
    bundle: &Bundle,
    model: &Model,
) -> Result<Unit, WalkFault>
    requires valid { IsNode store.old valid }
    requires variables { store.old.variables ≡ length model.now.names }
    requires main { HasMain bundle.now }
    ensures keeps { Keeps store.old store.new }
    ensures unit { IfOk result (λ unit. IsUnit store.new unit) }
    ensures read { IfOk result (λ unit. (there : List ℕ) × IsUpTo store.new valid unit there
        (λ values. unit_of bundle.now (entries_of (beginning model.now.names values)))) }
    ensures stops { IfErr result (IfStops (λ place conds. ShowsTooMany store.new valid
        (λ values. unit_of bundle.now (entries_of (beginning model.now.names values)))
        place conds)) }
{
    let sources = Sources::new(alloc, bundle)?;
    let pages = Pages::new(alloc, bundle, &sources)?;
    let table = MacroTable::new(alloc, model, store)?;
    let mut unit = Unit::new(alloc, table, valid);
    match read_main(alloc, store, &mut unit, &pages, valid) {
        Ok(()) => Ok(unit),
        Err(fault) => Err(fault),
    }
}

/// The refusals of preprocessing with those of its tokens.
fn all_failing(
    store: &mut Store,
    mut refusals: Refusals,
    failing: &[Failing],
) -> Result<List<Failing>, Memory>
    requires refusals { AreRefusals store.old refusals }
    requires failing { AllNodes store.old (conditions failing.now) }
    ensures keeps { Keeps store.old store.new }
    ensures entries { IfOk result (λ all. AreRefusals store.new all) }
    ensures refused { IfOk result
        (λ all. RefusesBoth store.old store.new refusals failing.now all) }
    ensures counted { IfOk result
        (λ all. CountsBoth store.old store.new refusals failing.now all) }
{
    for entry in failing {
        refusals.add(store, &entry.place, entry.why, entry.cond)?;
    }
    refusals.into_failing()
}

/// The tokens of C of a translation unit, string literals not joined. A refusal of preprocessing
/// comes before those of tokens.
fn convert(
    alloc: Global,
    store: &mut Store,
    unit: Unit,
    reserved: ReservedNames,
) -> Result<Parted<Stream>, Memory>
    requires live { IsNode store.old unit.live }
    requires given { AllNodes store.old (conditions_of unit.given) }
    requires refusals { AreRefusals store.old unit.refusals }
    ensures keeps { Keeps store.old store.new }
    ensures conditions { IfOk result
        (λ parted. All (λ token. IsNode store.new token.cond) parted.value) }
    ensures sorted { IfOk result (λ parted. (valid : CondOf) (there : List ℕ) (so_far : SoFar)
        → IsNode store.old valid → IsUpTo store.old valid unit there so_far
        → Sorts store.new valid (IsLeft (parts_in reserved so_far) store.new)
        (IsRefusedBy (parts_in reserved so_far)) parted) }
    ensures starts { IfOk result (λ parted. (valid : CondOf) (there : List ℕ) (so_far : SoFar)
        → IsNode store.old valid → IsUpTo store.old valid unit there so_far
        → StartsAgreeIn (parts_in reserved so_far) store.new parted.good parted.value) }
{
    let Unit {
        table: _,
        given,
        live,
        refusals,
    } = unit;
    let Parted {
        good,
        value,
        failing,
    } = convert_all(alloc, store, given.as_slice(), live, reserved)?;
    Ok(Parted {
        good,
        value,
        failing: all_failing(store, refusals, failing.as_slice())?,
    })
}

/// What preprocessing leaves of a bundle (ISO/IEC 9899:1999, 6.10; 5.1.1.2, phases 1 to 7) in each
/// valid configuration, adjacent string literals not joined.
pub fn preprocess_parts(
    alloc: Global,
    store: &mut Store,
    valid: Cond,
    bundle: &Bundle,
    model: &Model,
    reserved: ReservedNames,
) -> Result<Parted<Stream>, PreFault>
    requires valid { IsNode store.old valid }
    requires variables { store.old.variables ≡ length model.now.names }
    requires main { HasMain bundle.now }
    ensures keeps { Keeps store.old store.new }
    ensures conditions { IfOk result
        (λ parted. All (λ token. IsNode store.new token.cond) parted.value) }
    ensures sorted { IfOk result (Sorts store.new valid
        (IsLeft (parts_of bundle.now model.now.names reserved) store.new)
        (IsRefusedBy (parts_of bundle.now model.now.names reserved))) }
    ensures starts { IfOk result (λ parted. (values others : List Bool)
        → length values ≡ store.new.variables → length others ≡ store.new.variables
        → holds store.new parted.good values ≡ true → holds store.new parted.good others ≡ true
        → StartsAgree (parts_of bundle.now model.now.names reserved) store.new parted.value
        values others) }
    ensures few { IfOk result (λ parted.
        HasFewFaces (parts_of bundle.now model.now.names reserved) store.new valid) }
    ensures too_many { IfErr result (IfTooMany
        (AreTooManyAt (parts_of bundle.now model.now.names reserved) store.new valid)) }
{
    match read_unit(alloc, store, valid, bundle, model) {
        Ok(unit) => Ok(convert(alloc, store, unit, reserved)?),
        Err(fault) => Err(fault_of(alloc, store, fault)),
    }
}

/// What preprocessing leaves of a bundle (ISO/IEC 9899:1999, 6.10; 5.1.1.2, phases 1 to 7) in each
/// valid configuration.
pub fn preprocess_all(
    alloc: Global,
    store: &mut Store,
    valid: Cond,
    bundle: &Bundle,
    model: &Model,
    reserved: ReservedNames,
) -> Result<Parted<Stream>, PreFault>
    requires valid { IsNode store.old valid }
    requires variables { store.old.variables ≡ length model.now.names }
    requires main { HasMain bundle.now }
    ensures keeps { Keeps store.old store.new }
    ensures conditions { IfOk result
        (λ parted. All (λ token. IsNode store.new token.cond) parted.value) }
    ensures sorted { IfOk result (Sorts store.new valid
        (IsLeft (plain_of bundle.now model.now.names reserved) store.new)
        (IsRefusedBy (plain_of bundle.now model.now.names reserved))) }
    ensures starts { IfOk result (λ parted. (values others : List Bool)
        → length values ≡ store.new.variables → length others ≡ store.new.variables
        → holds store.new parted.good values ≡ true → holds store.new parted.good others ≡ true
        → StartsAgree (plain_of bundle.now model.now.names reserved) store.new parted.value
        values others) }
    ensures few { IfOk result (λ parted.
        HasFewFaces (plain_of bundle.now model.now.names reserved) store.new valid) }
    ensures too_many { IfErr result (IfTooMany
        (AreTooManyAt (plain_of bundle.now model.now.names reserved) store.new valid)) }
{
    let Parted {
        good,
        value,
        failing,
    } = preprocess_parts(alloc, store, valid, bundle, model, reserved)?;
    Ok(Parted {
        good,
        value: join_strings(alloc, store, good, value)?,
        failing,
    })
}
