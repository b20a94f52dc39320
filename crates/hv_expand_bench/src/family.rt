//! Macros of a product line that is made up.
ghost use Rattle.std.specs.Prelude.{◌≡◌, ◌≤◌, IfOk};
ghost use Rattle.hv_cond.specs.Diagram.{AllNodes};
ghost use Rattle.hv_expand.specs.Outcomes.{conditions};
ghost use Rattle.hv_plain.specs.declared.episode.RunEnd.TheVariants.{Line};
ghost use Rattle.hv_expand_bench.specs.Families.{IsFamily};

use crate::conditions::{Literal, all_of, asked};
use hv_base::{List, Memory, Place};
use hv_cond::Store;
use hv_expand::{ExpandFault, Outcome, RunEnd, expand_episode};
use hv_macros::MacroTable;
use hv_model::{Model, read_model};
use hv_toks::{Body, PpTok};
use std::alloc::Global;
use std::rc::Rc;

/// Options, of which each may be on or off, and macros over them. Each definition stands at a place
/// of its own.
#[derive(Drop)]
pub struct Family {
    pub(crate) alloc: Global,
    pub(crate) options: u32,
    pub(crate) store: Store,
    pub(crate) table: MacroTable,
    /// The offset in file 0 of the next definition.
    pub(crate) next: u64,
}

/// A model of so many options and no rule, whose names are `O0`, `O1` and so on.
fn model_of(alloc: Global, options: u32) -> Result<Model, Memory> {
    let mut text = String::new(alloc);
    for i in 0..options {
        let line = format!(in alloc; "option O{i}\n")?;
        text.push_str(line.as_str())?;
    }
    match read_model(alloc, text.as_bytes()) {
        Ok(model) => Ok(model),
        Err(_) => Err(Memory),
    }
}

/// Where an episode begins: of a controlling line at its first token.
pub(crate) fn begin_of(ends: RunEnd, at: usize) -> usize
    ensures line { ends ≡ Line → result ≡ 0 }
    ensures within { result ≤ at }
{
    match ends {
        RunEnd::Line => 0,
        RunEnd::Directive | RunEnd::FileEnd => at,
    }
}

impl Family {
    /// So many options, and the macros that a translation unit begins with.
    pub fn new(alloc: Global, options: u32) -> Result<Family, Memory>
        ensures { IfOk result IsFamily }
    {
        let model = model_of(alloc, options)?;
        let options = model.options() as u32;
        let mut store = Store::new(alloc, options)?;
        let table = MacroTable::new(alloc, &model, &mut store)?;
        Ok(Family {
            alloc,
            options,
            store,
            table,
            next: 0,
        })
    }

    /// Defines a macro where all of these hold.
    pub fn define(&mut self, name: &str, under: &[Literal], body: Body) -> Result<(), Memory>
        requires { IsFamily self.old }
        ensures { IsFamily self.new }
    {
        if self.next == u64::MAX {
            return Err(Memory);
        }
        let place = Place {
            stack: List::new(self.alloc),
            file: 0,
            offset: self.next,
        };
        let body = Rc::new(self.alloc, body)?;
        let cond = all_of(&mut self.store, self.options, under)?;
        self.table
            .define(&mut self.store, name.as_bytes(), cond, place, body)?;
        self.next += 1;
        Ok(())
    }

    /// What the episode at a position of a run comes to in the configurations whose number is below
    /// a limit, or in all; no outcome where the run is shorter.
    pub fn expand(
        &mut self,
        ends: RunEnd,
        run: &[PpTok],
        at: usize,
        limit: Option<u32>,
    ) -> Result<List<Outcome>, ExpandFault>
        requires { IsFamily self.old }
        ensures family { IsFamily self.new }
        ensures options { self.new.options ≡ self.old.options }
        ensures nodes { IfOk result
            (λ outcomes. AllNodes self.new.store (conditions outcomes)) }
    {
        let at = begin_of(ends, at);
        if at >= run.len() {
            return Ok(List::new(self.alloc));
        }
        let Ok(cond) = asked(&mut self.store, self.options, limit) else {
            return Err(ExpandFault::Memory);
        };
        let outcomes = expand_episode(
            self.alloc,
            &mut self.store,
            &self.table,
            run,
            ends,
            at,
            cond,
        )?;
        Ok(outcomes)
    }
}
