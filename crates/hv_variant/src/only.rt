//! The condition of one configuration.
ghost use Rattle.std.specs.Prelude.{◌≡◌, ◌<◌, ◌^◌, Bool, List, length, IfOk};
ghost use Rattle.hv_cond.specs.Diagram.{IsNode, Keeps, holds, value_of};
ghost use Rattle.hv_variant.specs.working.Agreement.{IsOnly, same};

use hv_base::{Config, Memory};
use hv_cond::{Cond, Store};

/// The condition that a variable has this value.
fn literal(store: &mut Store, variable: u32, is_on: bool) -> Result<Cond, Memory>
    requires { variable < store.old.variables }
    ensures keeps { Keeps store.old store.new }
    ensures node { IfOk result (IsNode store.new) }
    ensures meaning { IfOk result (λ c. (values : List Bool)
        → holds store.new c values ≡ same is_on (value_of values variable)) }
{
    let cond = store.var(variable)?;
    if is_on {
        Ok(cond)
    } else {
        Ok(store.not(cond)?)
    }
}

/// The condition that exactly this configuration has. The literal of the last variable comes first,
/// so that each step adds one branch.
pub(crate) fn only(store: &mut Store, config: &Config) -> Result<Cond, Memory>
    requires values { length config.now.on ≡ store.old.variables }
    requires fits { length config.now.on < 2 ^ 32 }
    ensures keeps { Keeps store.old store.new }
    ensures node { IfOk result (IsNode store.new) }
    ensures meaning { IfOk result (λ c. IsOnly store.new c config.now.on) }
{
    let mut cond = store.truth();
    let mut next = config.on.len();
    while next > 0 {
        next -= 1;
        let value = literal(store, next as u32, config.is_on(next))?;
        cond = store.and(value, cond)?;
    }
    Ok(cond)
}
