//! The name of an `#ifdef` or `#ifndef` line.
ghost use Rattle.std.specs.Prelude.{◌≡◌, [], Bool, List, ℕ, IfOk, MatchOption};
ghost use Rattle.hv_base.specs.declared.place.Place.{Place as Place'};
ghost use Rattle.hv_base.specs.declared.why.Why.TheVariants.{BadDirective};
ghost use Rattle.hv_cond.specs.Diagram.{AllNodes, IsNode, Keeps, holds};
ghost use Rattle.hv_macros.specs.Alternatives.{conditions, meanings};
ghost use Rattle.hv_macros.specs.Table.{IsTableOf, meaning_in};
ghost use Rattle.hv_plainpp.specs.Groups.{is_defined, name_truth};
ghost use Rattle.hv_plainpp.specs.Reading.{Reading, reading, refusal};
ghost use Rattle.hv_toks.specs.Macro.{Macro, macro_of};
ghost use Rattle.hv_texts.specs.Readings.{AreMet, AreWithin, Ends, HasTruth};
ghost use Rattle.hv_texts.specs.working.Names.{AreTruthsOf, IsOneMore};

use crate::came::{Came, Truths};
use hv_base::{List, Memory, Place, Why};
use hv_cond::{Cond, Store};
use hv_given::Refusals;
use hv_macros::{Alternative, MacroTable, Meaning};
use hv_toks::{PpKind, PpTok};
use std::alloc::Global;

/// The two conditions with the configurations of one more alternative.
fn with_part(store: &mut Store, truths: Truths, part: &Alternative) -> Result<Truths, Memory>
    requires holds { IsNode store.old truths.holds }
    requires fails { IsNode store.old truths.fails }
    requires cond { IsNode store.old part.now.cond }
    ensures keeps { Keeps store.old store.new }
    ensures more { IfOk result (λ after. IsOneMore store.old store.new truths after part.now.cond
        (macro_of part.now.meaning)) }
{
    match part.meaning {
        Meaning::Defined { .. } => Ok(Truths {
            holds: store.or(truths.holds, part.cond)?,
            fails: truths.fails,
        }),
        Meaning::Undefined => Ok(Truths {
            holds: truths.holds,
            fails: store.or(truths.fails, part.cond)?,
        }),
    }
}

/// Where a name is a macro, and where it is none, by its alternatives.
fn truths_of(store: &mut Store, parts: &[Alternative]) -> Result<Truths, Memory>
    requires { AllNodes store.old (conditions parts.now) }
    ensures keeps { Keeps store.old store.new }
    ensures truths { IfOk result (λ truths. AreTruthsOf store.new truths
        (λ values. meanings store.old values parts.now)) }
{
    let never = store.falsity();
    let mut truths = Truths {
        holds: never,
        fails: never,
    };
    for part in parts {
        truths = with_part(store, truths, part)?;
    }
    Ok(truths)
}

/// A line that is refused in all configurations of a condition.
pub(crate) fn refused_line(
    alloc: Global,
    store: &mut Store,
    place: &Place,
    why: Why,
    cond: Cond,
) -> Result<Came<Truths>, Memory>
    requires { IsNode store.old cond }
    ensures keeps { Keeps store.old store.new }
    ensures met { IfOk result (λ came. (read : List Bool → Reading Bool)
        → ((values : List Bool) → read values ≡ refusal why place.now)
        → AreMet store.new cond came.given read) }
    ensures ends { IfOk result (λ came. (read : List Bool → Reading Bool)
        → ((values : List Bool) → read values ≡ refusal why place.now)
        → Ends store.new cond came.good came.failing (HasTruth store.new came.value) read) }
    ensures none { IfOk result (λ came. came.given ≡ []) }
    ensures within { IfOk result (λ came. AreWithin store.new came.good came.value) }
{
    let never = store.falsity();
    let mut refusals = Refusals::new(alloc);
    refusals.add(store, place, why, cond)?;
    Ok(Came {
        given: List::new(alloc),
        good: never,
        value: Truths {
            holds: never,
            fails: never,
        },
        failing: refusals.into_failing()?,
    })
}

/// The name after `ifdef` or `ifndef`; `None` where no name stands there.
fn name_of(tokens: &[PpTok]) -> Option<&[u8]>
    ensures { (macros : List ℕ → Macro) (hash : Place') → MatchOption result
        (name_truth macros hash tokens.now ≡ refusal BadDirective hash)
        (λ name. name_truth macros hash tokens.now ≡ reading (is_defined (macros name.now))) }
{
    match tokens.first() {
        Some(token) if token.kind == PpKind::Identifier => Some(token.text.as_slice()),
        _ => None,
    }
}

/// Whether the name after `ifdef` is a macro, in each configuration of a condition; for `ifndef`
/// the two conditions change places. What stands after the name is ignored; without a name the line
/// is refused at its `#`, which has this place (ISO/IEC 9899:1999, 6.10.1, paragraph 5).
pub fn name_truth(
    alloc: Global,
    store: &mut Store,
    table: &MacroTable,
    hash: &Place,
    tokens: &[PpTok],
    cond: Cond,
) -> Result<Came<Truths>, Memory>
    requires cond { IsNode store.old cond }
    requires table { IsTableOf store.old table.now }
    ensures keeps { Keeps store.old store.new }
    ensures met { IfOk result (λ came. came.given ≡ []) }
    ensures ends { IfOk result (λ came. Ends store.new cond came.good came.failing
        (HasTruth store.new came.value)
        (λ values. name_truth (meaning_in store.old table.now values) hash.now tokens.now)) }
    ensures within { IfOk result (λ came. AreWithin store.new came.good came.value) }
{
    let Some(name) = name_of(tokens) else {
        return refused_line(alloc, store, hash, Why::BadDirective, cond);
    };
    let parts = table.alternatives(store, name, cond)?;
    let value = truths_of(store, parts.as_slice())?;
    Ok(Came {
        given: List::new(alloc),
        good: cond,
        value,
        failing: List::new(alloc),
    })
}
