//! The diagram of a model's valid configurations, and reading a model with it.
ghost use Rattle.std.specs.Prelude.{◌≡◌, ◌↔◌, Bool, List, length, IfErr, IfNone, IfOk, IfSome, IsTrue};
ghost use Rattle.hv_cond.specs.Diagram.{IsLeast, IsNever, IsNode, Keeps, holds};
ghost use Rattle.hv_model.specs.Lines.{SaysOne};
ghost use Rattle.hv_model.specs.Model.{IsModelOf, IsRefusalOf};
ghost use Rattle.hv_model.specs.Rule.{IsLeastValid, IsValid, meets_all};
ghost use Rattle.hv_model.specs.Valid.{IsValidIn};

use crate::faults::{ModelKind, ModelRefusal};
use crate::join::joined;
use crate::model::{Model, bad, read_lines};
use crate::order::order_of;
use hv_base::{Config, List, Memory};
use hv_cond::{Cond, Store};
use std::alloc::Global;

/// A model with the diagram of its valid configurations. Its store has one variable for each
/// option, in an order that keeps the diagram small.
#[derive(Drop)]
pub struct ModelDiagram {
    pub model: Model,
    /// Conditions on the options; variable i is option i.
    pub store: Store,
    /// The condition that holds exactly under the valid configurations.
    pub valid: Cond,
}

impl ModelDiagram {
    /// Makes a model's diagram.
    pub fn new(alloc: Global, model: Model) -> Result<ModelDiagram, Memory>
        ensures unchanged { IfOk result (λ made. made.model ≡ model) }
        ensures valid { IfOk result (λ made. IsValidIn model made.store made.valid) }
    {
        let (store, valid) = diagram_of(alloc, &model)?;
        Ok(ModelDiagram {
            model,
            store,
            valid,
        })
    }

    /// The least valid configuration, in the model's order and off before on, or `None` where none
    /// is valid.
    pub fn least(&self) -> Result<Option<Config>, Memory>
        requires { IsValidIn self.now.model self.now.store self.now.valid }
        ensures least { IfOk result
            (λ answer. IfSome answer (λ config. IsLeastValid self.now.model config.on)) }
        ensures none { IfOk result
            (λ answer. IfNone answer ((values : List Bool) → ¬ (IsValid self.now.model values))) }
    {
        least_in(&self.store, self.valid)
    }
}

/// A store in the model's order, and the condition of the model's valid configurations.
fn diagram_of(alloc: Global, model: &Model) -> Result<(Store, Cond), Memory>
    ensures { IfOk result (λ made. IsValidIn model.now made.0 made.1) }
{
    let order = order_of(alloc, model.rules(), model.options())?;
    let mut store = Store::ordered(alloc, model.options() as u32, order.as_slice())?;
    let valid = joined(alloc, model.rules(), &mut store)?;
    Ok((store, valid))
}

/// The first assignment that satisfies the condition, off before on.
fn least_in(store: &Store, valid: Cond) -> Result<Option<Config>, Memory>
    requires { IsNode store.now valid }
    ensures least { IfOk result
        (λ answer. IfSome answer (λ config. IsLeast store.now valid config.on)) }
    ensures none { IfOk result (λ answer. IfNone answer (IsNever store.now valid)) }
{
    let Some(on) = store.pick(valid)? else {
        return Ok(None);
    };
    Ok(Some(Config {
        on: List::from_vec(on),
    }))
}

/// The condition that holds exactly under the valid configurations; variable i is option i.
pub fn valid_cond(model: &Model, store: &mut Store) -> Result<Cond, Memory>
    requires { store.old.variables ≡ length model.now.names }
    ensures keeps { Keeps store.old store.new }
    ensures node { IfOk result (IsNode store.new) }
    ensures meaning { IfOk result
        (λ c. (values : List Bool) → holds store.new c values ≡ meets_all values model.now.rules) }
    ensures valid { IfOk result
        (λ c. (values : List Bool) →
        length values ≡ length model.now.names →
        (IsTrue (holds store.new c values) ↔ IsValid model.now values)) }
{
    joined(model.allocator(), model.rules(), store)
}

/// The least valid configuration, in the model's order and off before on, or `None` where none is
/// valid.
pub fn least_valid(alloc: Global, model: &Model) -> Result<Option<Config>, Memory>
    ensures least { IfOk result
        (λ answer. IfSome answer (λ config. IsLeastValid model.now config.on)) }
    ensures none { IfOk result
        (λ answer. IfNone answer ((values : List Bool) → ¬ (IsValid model.now values))) }
{
    let (store, valid) = diagram_of(alloc, model)?;
    least_in(&store, valid)
}

/// Reads a model file to the model and the diagram of its valid configurations. The fault is the
/// first one.
pub fn read_diagram(alloc: Global, bytes: &[u8]) -> Result<ModelDiagram, ModelRefusal>
    ensures accepted { IfOk result (λ read. IsModelOf bytes.now read.model) }
    ensures valid { IfOk result (λ read. IsValidIn read.model read.store read.valid) }
    ensures configuration { IfOk result (λ read. (values : List Bool) × IsValid read.model values) }
    ensures refused { IfErr result (IsRefusalOf bytes.now) }
    ensures one_reading { SaysOne bytes.now }
{
    let model = read_lines(alloc, bytes)?;
    let Ok(diagram) = ModelDiagram::new(alloc, model) else {
        return Err(ModelRefusal::Memory);
    };
    match diagram.least() {
        Ok(Some(_)) => Ok(diagram),
        Ok(None) => Err(bad(0, ModelKind::NoConfiguration)),
        Err(_) => Err(ModelRefusal::Memory),
    }
}

/// Reads a model file. The fault is the first one.
pub fn read_model(alloc: Global, bytes: &[u8]) -> Result<Model, ModelRefusal>
    ensures accepted { IfOk result (IsModelOf bytes.now) }
    ensures configuration { IfOk result (λ model. (values : List Bool) × IsValid model values) }
    ensures refused { IfErr result (IsRefusalOf bytes.now) }
    ensures one_reading { SaysOne bytes.now }
{
    let ModelDiagram {
        model,
        store: _,
        valid: _,
    } = read_diagram(alloc, bytes)?;
    Ok(model)
}
