//! Rules joined to one condition.
ghost use Rattle.std.specs.Prelude.{◌≡◌, Bool, List, map, IfOk};
ghost use Rattle.hv_cond.specs.Diagram.{AllNodes, IsNode, Keeps, all_hold, holds};
ghost use Rattle.hv_model.specs.Rule.{meets_all};
ghost use Rattle.hv_model.specs.working.Steps.{AllFit, rule_of};

use crate::code::Code;
use hv_base::Memory;
use hv_cond::{Cond, Store};
use std::alloc::Global;

/// The conditions that the variables, which are the options, have values that meet each rule.
fn conditions(alloc: Global, rules: &[Code], store: &mut Store) -> Result<Vec<Cond>, Memory>
    requires { AllFit store.old.variables rules.now }
    ensures keeps { Keeps store.old store.new }
    ensures nodes { IfOk result (λ found. AllNodes store.new found.items) }
    ensures meaning { IfOk result
        (λ found. (values : List Bool) →
        all_hold store.new found.items values ≡ meets_all values (map rule_of rules.now)) }
{
    let mut found = Vec::new(alloc);
    for rule in rules {
        let met = rule.cond(store)?;
        found.push(met)?;
    }
    Ok(found)
}

/// The condition that the variables, which are the options, have values that meet each rule.
pub(crate) fn joined(alloc: Global, rules: &[Code], store: &mut Store) -> Result<Cond, Memory>
    requires { AllFit store.old.variables rules.now }
    ensures keeps { Keeps store.old store.new }
    ensures node { IfOk result (IsNode store.new) }
    ensures meaning { IfOk result
        (λ c. (values : List Bool) →
        holds store.new c values ≡ meets_all values (map rule_of rules.now)) }
{
    let found = conditions(alloc, rules, store)?;
    Ok(store.all(alloc, found.as_slice())?)
}
