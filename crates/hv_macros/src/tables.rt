//! Macro tables under all configurations.
ghost use Rattle.std.specs.Prelude.{◌≡◌, ◌↔◌, ◌∷◌, [], true, All, AllPairs, Bool, IsTrue, List, ℕ, if◌then◌else◌, IfOk, OnErr, OnOk};
ghost use Rattle.std.specs.Str.{bytes_eq};
ghost use Rattle.hv_cond.specs.Diagram.{Diagram, IsNode, Keeps, holds};
ghost use Rattle.hv_cond.specs.Parts.{IsPartition};
ghost use Rattle.hv_macros.specs.Alternatives.{MeansOther, conditions, meanings};
ghost use Rattle.hv_macros.specs.Table.{HasOneBody, IsFreeFor, IsNoMacro, IsTableOf, SetsNothing, SetsUnder, kept, meaning_in};
ghost use Rattle.hv_toks.specs.Macro.{defined, macro_of, undefined};

use crate::alternatives::{Alternative, overridden, split};
use hv_base::{List, Memory, Place};
use hv_cond::{Cond, Store};
use hv_toks::{Body, Meaning};
use indexmap::IndexMap;
use std::alloc::Global;
use std::rc::Rc;

/// What each name means to the preprocessor at a point of a translation unit, under all
/// configurations. Its conditions are nodes of one store.
#[derive(Drop)]
pub struct MacroTable {
    alloc: Global,
    /// Of each name the conditions under which it is a macro, with the macro. A name without an
    /// entry, or outside its conditions, is none.
    names: IndexMap<Vec<u8>, List<Alternative>>,
}

impl MacroTable {
    pub(crate) fn empty(alloc: Global) -> MacroTable
        ensures { (name : List ℕ) → kept result name ≡ [] }
    {
        MacroTable {
            alloc,
            names: IndexMap::new(alloc),
        }
    }

    fn find(&self, name: &[u8]) -> &[Alternative]
        ensures { result.now ≡ kept self.now name.now }
    {
        match self.names.get(name) {
            Some(alternatives) => alternatives.as_slice(),
            None => &[],
        }
    }

    fn put(&mut self, name: &[u8], alternatives: List<Alternative>) -> Result<(), Memory>
        ensures put { OnOk result ((other : List ℕ) → kept self.new other
            ≡ (if bytes_eq name.now other then alternatives else kept self.old other)) }
        ensures unchanged { OnErr result
            ((other : List ℕ) → kept self.new other ≡ kept self.old other) }
    {
        let key = Vec::from_slice(self.alloc, name)?;
        self.names.insert(key, alternatives)?;
        Ok(())
    }

    fn set(
        &mut self,
        store: &mut Store,
        name: &[u8],
        cond: Cond,
        meaning: &Meaning,
    ) -> Result<(), Memory>
        requires cond { IsNode store.old cond }
        requires nodes { IsTableOf store.old self.old }
        ensures keeps { Keeps store.old store.new }
        ensures nodes { IsTableOf store.new self.new }
        ensures set { OnOk result (SetsUnder store.old store.new self.old self.new
            name.now cond (macro_of meaning.now)) }
        ensures unchanged { OnErr result (SetsNothing store.old store.new self.old self.new) }
    {
        let alternatives = overridden(self.alloc, store, self.find(name), cond, meaning)?;
        self.put(name, alternatives)
    }

    /// Defines a macro under a condition: there the name has this meaning, elsewhere and for other
    /// names nothing changes. When out of memory nothing changes anywhere. Definitions of one place
    /// keep one name and one body where nothing else is defined at this place.
    pub fn define(
        &mut self,
        store: &mut Store,
        name: &[u8],
        cond: Cond,
        place: Place,
        body: Rc<Body>,
    ) -> Result<(), Memory>
        requires cond { IsNode store.old cond }
        requires nodes { IsTableOf store.old self.old }
        ensures keeps { Keeps store.old store.new }
        ensures nodes { IsTableOf store.new self.new }
        ensures defined { OnOk result (SetsUnder store.old store.new self.old self.new
            name.now cond (defined place body.value)) }
        ensures unchanged { OnErr result (SetsNothing store.old store.new self.old self.new) }
        ensures one_body { HasOneBody store.old self.old
            → IsFreeFor store.old self.old place name.now body.value
            → HasOneBody store.new self.new }
    {
        self.set(store, name, cond, &Meaning::Defined { place, body })
    }

    /// Removes the macro of this name under a condition, and changes nothing elsewhere and for
    /// other names. When out of memory nothing changes anywhere.
    pub fn undef(&mut self, store: &mut Store, name: &[u8], cond: Cond) -> Result<(), Memory>
        requires cond { IsNode store.old cond }
        requires nodes { IsTableOf store.old self.old }
        ensures keeps { Keeps store.old store.new }
        ensures nodes { IsTableOf store.new self.new }
        ensures removed { OnOk result (SetsUnder store.old store.new self.old self.new
            name.now cond undefined) }
        ensures unchanged { OnErr result (SetsNothing store.old store.new self.old self.new) }
        ensures one_body { HasOneBody store.old self.old → HasOneBody store.new self.new }
    {
        self.set(store, name, cond, &Meaning::Undefined)
    }

    /// Whether a name is no macro in any configuration. Asks no condition and takes no memory.
    pub fn is_no_macro(&self, name: &[u8]) -> bool
        ensures nowhere { IsTrue result → (diagram : Diagram) (values : List Bool)
            → meaning_in diagram self.now values name.now ≡ undefined }
        ensures exact { (diagram : Diagram) → IsTableOf diagram self.now
            → IsTrue result ↔ IsNoMacro diagram self.now name.now }
    {
        self.find(name).is_empty()
    }

    /// What a name means under a condition: the parts of the condition in which it has one meaning
    /// each, no two of which have the same.
    pub fn alternatives(
        &self,
        store: &mut Store,
        name: &[u8],
        cond: Cond,
    ) -> Result<List<Alternative>, Memory>
        requires cond { IsNode store.old cond }
        requires nodes { IsTableOf store.old self.now }
        ensures keeps { Keeps store.old store.new }
        ensures partition { IfOk result
            (λ parts. IsPartition store.new cond (conditions parts)) }
        ensures meaning { IfOk result (λ parts. All (λ part. (values : List Bool)
            → holds store.new part.cond values ≡ true
            → macro_of part.meaning ≡ meaning_in store.old self.now values name.now) parts) }
        ensures distinct { IfOk result (λ parts. AllPairs MeansOther parts) }
        ensures meanings { IfOk result
            (λ parts. (values : List Bool) → meanings store.new values parts
            ≡ (if holds store.old cond values
            then meaning_in store.old self.now values name.now ∷ [] else [])) }
    {
        split(self.alloc, store, self.find(name), cond)
    }
}
