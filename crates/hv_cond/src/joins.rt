//! Many conditions joined to one, those first whose branches stand last in the order.
// DECISIONS: order of joining rules
ghost use Rattle.std.specs.Prelude.{◌≡◌, Bool, List, map, IfOk};
ghost use Rattle.hv_cond.specs.Diagram.{AllNodes, IsNode, Keeps, all_hold, holds};
ghost use Rattle.hv_cond.specs.working.Joins.{cond_in};

use crate::conditions::Cond;
use crate::stores::Store;
use std::alloc::{AllocError, Global};

/// A condition with its rank; the one of the lowest rank is joined first.
#[derive(Clone, Copy)]
pub(crate) struct Ranked {
    pub(crate) rank: u32,
    pub(crate) cond: Cond,
}

/// The conditions with their ranks, which fall with the place of the variable that each tests
/// first.
fn with_ranks(alloc: Global, store: &Store, parts: &[Cond]) -> Result<Vec<Ranked>, AllocError>
    requires { AllNodes store.now parts.now }
    ensures { IfOk result (λ found. map cond_in found.items ≡ parts.now) }
{
    let mut found = Vec::new(alloc);
    for cond in parts {
        let rank = u32::MAX - store.level(*cond);
        found.push(Ranked { rank, cond: *cond })?;
    }
    Ok(found)
}

/// The conjunction of conditions, joined in the order in which they stand.
fn joined(store: &mut Store, parts: &[Ranked]) -> Result<Cond, AllocError>
    requires { AllNodes store.old (map cond_in parts.now) }
    ensures keeps { Keeps store.old store.new }
    ensures node { IfOk result (IsNode store.new) }
    ensures meaning { IfOk result
        (λ c. (values : List Bool) →
        holds store.new c values ≡ all_hold store.old (map cond_in parts.now) values) }
{
    let mut all = store.truth();
    for part in parts {
        all = store.and(all, part.cond)?;
    }
    Ok(all)
}

/// The conjunction of conditions. Each step puts branches above those of the steps before, and
/// makes anew only the part of the diagram where the condition's own variables are.
pub(crate) fn all(store: &mut Store, alloc: Global, parts: &[Cond]) -> Result<Cond, AllocError>
    requires { AllNodes store.old parts.now }
    ensures keeps { Keeps store.old store.new }
    ensures node { IfOk result (IsNode store.new) }
    ensures meaning { IfOk result
        (λ c. (values : List Bool) →
        holds store.new c values ≡ all_hold store.old parts.now values) }
{
    let mut last_first = with_ranks(alloc, store, parts)?;
    last_first.sort_by_key(|part| part.rank)?;
    joined(store, last_first.as_slice())
}
