//! Conditions of a family, by the numbers of its options.
ghost use Rattle.std.specs.Prelude.{◌≡◌, IfOk};
ghost use Rattle.hv_cond.specs.Diagram.{IsNode, Keeps};

use hv_base::Memory;
use hv_cond::{Cond, Store};

/// An option by its number, and whether it is on.
pub type Literal = (u32, bool);

/// The condition that an option is on, or off; one that isn't there is off.
fn literal(store: &mut Store, options: u32, literal: Literal) -> Result<Cond, Memory>
    requires { store.old.variables ≡ options }
    ensures keeps { Keeps store.old store.new }
    ensures node { IfOk result (IsNode store.new) }
{
    let (option, is_on) = literal;
    let on = if option < options {
        store.var(option)?
    } else {
        store.falsity()
    };
    if is_on { Ok(on) } else { Ok(store.not(on)?) }
}

/// The condition that all of these hold.
pub fn all_of(store: &mut Store, options: u32, literals: &[Literal]) -> Result<Cond, Memory>
    requires { store.old.variables ≡ options }
    ensures keeps { Keeps store.old store.new }
    ensures node { IfOk result (IsNode store.new) }
{
    let mut all = store.truth();
    for one in literals {
        let next = literal(store, options, *one)?;
        all = store.and(all, next)?;
    }
    Ok(all)
}

/// The condition of the configurations whose number is below a limit; bit i of the number says
/// whether option i is on.
fn below(store: &mut Store, options: u32, limit: u32) -> Result<Cond, Memory>
    requires { store.old.variables ≡ options }
    ensures keeps { Keeps store.old store.new }
    ensures node { IfOk result (IsNode store.new) }
{
    let mut less = store.falsity();
    for bit in 0..32u32 {
        let off = literal(store, options, (bit, false))?;
        less = if (limit >> bit) & 1 == 1 {
            store.or(off, less)?
        } else {
            store.and(off, less)?
        };
    }
    Ok(less)
}

/// The condition of the configurations whose number is below a limit; of all, where there is none.
pub fn asked(store: &mut Store, options: u32, limit: Option<u32>) -> Result<Cond, Memory>
    requires { store.old.variables ≡ options }
    ensures keeps { Keeps store.old store.new }
    ensures node { IfOk result (IsNode store.new) }
{
    match limit {
        Some(limit) => below(store, options, limit),
        None => Ok(store.truth()),
    }
}
