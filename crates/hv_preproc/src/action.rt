//! The other directives of processed groups (ISO/IEC 9899:1999, 6.10.2 to 6.10.7).
ghost use Rattle.std.specs.Prelude.{◌≡◌, ◌<◌, ◌≤◌, ◌&&◌, ◌++◌, ◌∷◌, [], ℕ, Bool, List, IfNone, IfOk, IfSome, OnOk};
ghost use Rattle.hv_cond.specs.Diagram.{IsNode, Keeps, holds};
ghost use Rattle.hv_directives.specs.Values.{action_of, header_of};
ghost use Rattle.hv_plainpp.specs.Definitions.{definition, undefined_name};
ghost use Rattle.hv_plainpp.specs.Directives.{include};
ghost use Rattle.hv_plainpp.specs.Files.{Entered};
ghost use Rattle.hv_plainpp.specs.Groups.{is_processed};
ghost use Rattle.hv_plainpp.specs.Preprocessing.{define_macro, include_file, obeyed, remove_macro};
ghost use Rattle.hv_preproc.specs.working.Keys.{IsBefore, IsInitial, IsOfInitial, IsUntil, key, reached};
ghost use Rattle.hv_preproc.specs.working.OpenGroups.{AreGroups, groups_in};
ghost use Rattle.hv_preproc.specs.working.Parts.{ArePages, IsFileAt, IsInclusion, IsOf, action_part, reader_at};
ghost use Rattle.hv_preproc.specs.working.Walk.{IsSound, IsUnit, Reads};

use crate::open_file::OpenFile;
use crate::page::{Page, Pages};
use crate::unit::Unit;
use hv_base::{List, Memory, Place, Why};
use hv_cond::{Cond, Store};
use hv_directives::{Action, Definition, Header, definition_on, header_on, undefined_name};
use hv_toks::PpTok;
use std::rc::Rc;

/// A file that is to be read next, by an `#include` in the configurations of a condition.
#[derive(Drop)]
pub(crate) struct Inclusion<'p, 'a> {
    pub(crate) page: &'p Page<'a>,
    pub(crate) stack: List<u64>,
    pub(crate) cond: Cond,
}

impl OpenFile<'_> {
    /// `#define` in live configurations.
    fn define(
        &self,
        store: &mut Store,
        unit: &mut Unit,
        hash: Place,
        line: &[PpTok],
        cond: Cond,
    ) -> Result<(), Memory>
        requires cond { IsNode store.old cond }
        requires sound { IsSound store.old unit.old (key hash) }
        requires file { ¬ IsInitial hash }
        ensures keeps { Keeps store.old store.new }
        ensures unit { OnOk result (IsUnit store.new unit.new) }
        ensures read { OnOk result ((here there : List ℕ) → IsUntil here (key hash)
            → IsBefore (key hash) there → IsSound store.old unit.old here
            → Reads store.old store.new unit.old unit.new here there cond
            (λ values. define_macro hash (definition line.now))) }
    {
        let Some(definition) = definition_on(self.alloc, line)? else {
            return unit.refuse(store, &hash, Why::BadDefine, cond);
        };
        let Definition { name, body } = definition;
        let body = Rc::new(self.alloc, body)?;
        unit.table.define(store, name.as_slice(), cond, hash, body)
    }

    /// `#undef` in live configurations.
    fn undef(
        &self,
        store: &mut Store,
        unit: &mut Unit,
        hash: &Place,
        line: &[PpTok],
        cond: Cond,
    ) -> Result<(), Memory>
        requires cond { IsNode store.old cond }
        requires unit { IsUnit store.old unit.old }
        ensures keeps { Keeps store.old store.new }
        ensures unit { OnOk result (IsUnit store.new unit.new) }
        ensures read { OnOk result ((here : List ℕ) → IsSound store.old unit.old here
            → Reads store.old store.new unit.old unit.new here here cond
            (λ values. remove_macro hash.now (undefined_name line.now))) }
    {
        match undefined_name(line) {
            Some(name) => unit.table.undef(store, name, cond),
            None => unit.refuse(store, hash, Why::BadDefine, cond),
        }
    }

    /// The file that an `#include` of a header names; refuses the configurations of a condition
    /// where it is not there, or where no further include may be open.
    fn find<'p, 'a>(
        &self,
        store: &mut Store,
        unit: &mut Unit,
        pages: &'p Pages<'a>,
        hash: &PpTok,
        header: Header<'_>,
        left: usize,
        cond: Cond,
    ) -> Result<Option<Inclusion<'p, 'a>>, Memory>
        requires cond { IsNode store.old cond }
        requires unit { IsUnit store.old unit.old }
        requires pages { ArePages pages.now }
        ensures keeps { Keeps store.old store.new }
        ensures unit { IfOk result (λ answer. IsUnit store.new unit.new) }
        ensures none { IfOk result (λ answer. IfNone answer ((at : Entered) (here : List ℕ)
            → IsOf self.now.name.now self.now.origin at → IsSound store.old unit.old here
            → Reads store.old store.new unit.old unit.new here here cond
            (λ values. include_file pages.now.bundle.now (reader_at left pages.now.bundle.now)
            at hash.now (header_of header.entry)))) }
        ensures some { IfOk result (λ answer. IfSome answer (λ inner. (at : Entered)
            → IsOf self.now.name.now self.now.origin at
            → IsFileAt pages.now.bundle.now at hash.now (header_of header.entry) left
            inner.page.now inner.stack)) }
        ensures unchanged { IfOk result (λ answer. IfSome answer
            (λ inner. (inner.cond ≡ cond) × (unit.new ≡ unit.old))) }
    {
        let place = self.place_of(hash)?;
        if left == 0 {
            unit.refuse(store, &place, Why::IncludeTooDeep, cond)?;
            return Ok(None);
        }
        match pages.find(self.alloc, self.name, header)? {
            Some(page) => Ok(Some(Inclusion {
                page,
                stack: self.stack_within(hash)?,
                cond,
            })),
            None => {
                unit.refuse(store, &place, Why::NoFile, cond)?;
                Ok(None)
            }
        }
    }

    /// `#include` in live configurations, where so many more includes may be open.
    fn include<'p, 'a>(
        &self,
        store: &mut Store,
        unit: &mut Unit,
        pages: &'p Pages<'a>,
        hash: &PpTok,
        line: &[PpTok],
        left: usize,
        cond: Cond,
    ) -> Result<Option<Inclusion<'p, 'a>>, Memory>
        requires cond { IsNode store.old cond }
        requires unit { IsUnit store.old unit.old }
        requires pages { ArePages pages.now }
        ensures keeps { Keeps store.old store.new }
        ensures unit { IfOk result (λ answer. IsUnit store.new unit.new) }
        ensures none { IfOk result (λ answer. IfNone answer ((at : Entered) (here : List ℕ)
            → IsOf self.now.name.now self.now.origin at → IsSound store.old unit.old here
            → Reads store.old store.new unit.old unit.new here here cond
            (λ values. obeyed pages.now.bundle.now (reader_at left pages.now.bundle.now)
            at hash.now (include line.now)))) }
        ensures some { IfOk result (λ answer. IfSome answer (λ inner. (at : Entered)
            → IsOf self.now.name.now self.now.origin at
            → IsInclusion pages.now.bundle.now at hash.now (include line.now) left
            inner.page.now inner.stack)) }
        ensures unchanged { IfOk result (λ answer. IfSome answer
            (λ inner. (inner.cond ≡ cond) × (unit.new ≡ unit.old))) }
    {
        match header_on(line) {
            Some(header) => self.find(store, unit, pages, hash, header, left, cond),
            None => {
                let place = self.place_of(hash)?;
                unit.refuse(store, &place, Why::BadDirective, cond)?;
                Ok(None)
            }
        }
    }

    /// Does what a directive with this `#` does in live configurations, the reading of a file
    /// aside: an `#include` answers the file that is to be read next.
    fn act<'p, 'a>(
        &self,
        store: &mut Store,
        unit: &mut Unit,
        pages: &'p Pages<'a>,
        hash: &PpTok,
        action: Action<'_>,
        left: usize,
        cond: Cond,
    ) -> Result<Option<Inclusion<'p, 'a>>, Memory>
        requires cond { IsNode store.old cond }
        requires sound { IsSound store.old unit.old
            (self.now.origin.stack ++ hash.now.span.start ∷ []) }
        requires file { ¬ IsOfInitial self.now.origin.file }
        requires pages { ArePages pages.now }
        ensures keeps { Keeps store.old store.new }
        ensures unit { IfOk result (λ answer. IsUnit store.new unit.new) }
        ensures none { IfOk result (λ answer. IfNone answer ((at : Entered) (low high : ℕ)
            → IsOf self.now.name.now self.now.origin at
            → low ≤ hash.now.span.start → hash.now.span.start < high
            → IsSound store.old unit.old (reached at low)
            → Reads store.old store.new unit.old unit.new (reached at low) (reached at high) cond
            (λ values. obeyed pages.now.bundle.now (reader_at left pages.now.bundle.now)
            at hash.now (action_of action.entry)))) }
        ensures some { IfOk result (λ answer. IfSome answer (λ inner. (at : Entered)
            → IsOf self.now.name.now self.now.origin at
            → IsInclusion pages.now.bundle.now at hash.now (action_of action.entry) left
            inner.page.now inner.stack)) }
        ensures unchanged { IfOk result (λ answer. IfSome answer
            (λ inner. (inner.cond ≡ cond) × (unit.new ≡ unit.old))) }
    {
        let place = self.place_of(hash)?;
        match action {
            Action::Include(line) => self.include(store, unit, pages, hash, line, left, cond),
            Action::Define(line) => {
                self.define(store, unit, place, line, cond)?;
                Ok(None)
            }
            Action::Undef(line) => {
                self.undef(store, unit, &place, line, cond)?;
                Ok(None)
            }
            Action::Error => {
                unit.refuse(store, &place, Why::ErrorDirective, cond)?;
                Ok(None)
            }
            Action::Ignored => Ok(None),
            Action::Unknown => {
                unit.refuse(store, &place, Why::BadDirective, cond)?;
                Ok(None)
            }
        }
    }

    /// Does what a directive with this `#` does where it is processed, the reading of a file aside:
    /// an `#include` answers the file that is to be read next.
    pub(crate) fn obey<'p, 'a>(
        &self,
        store: &mut Store,
        unit: &mut Unit,
        pages: &'p Pages<'a>,
        hash: &PpTok,
        action: Action<'_>,
        left: usize,
    ) -> Result<Option<Inclusion<'p, 'a>>, Memory>
        requires groups { AreGroups store.old self.now.groups }
        requires sound { IsSound store.old unit.old
            (self.now.origin.stack ++ hash.now.span.start ∷ []) }
        requires file { ¬ IsOfInitial self.now.origin.file }
        requires pages { ArePages pages.now }
        ensures keeps { Keeps store.old store.new }
        ensures unit { IfOk result (λ answer. IsUnit store.new unit.new) }
        ensures none { IfOk result (λ answer. IfNone answer ((at : Entered) (low high : ℕ)
            → IsOf self.now.name.now self.now.origin at
            → low ≤ hash.now.span.start → hash.now.span.start < high
            → IsSound store.old unit.old (reached at low)
            → Reads store.old store.new unit.old unit.new (reached at low) (reached at high)
            self.now.groups.cond (λ values. action_part pages.now.bundle.now
            (reader_at left pages.now.bundle.now) at (groups_in store.old self.now.groups values)
            hash.now (action_of action.entry)))) }
        ensures some { IfOk result (λ answer. IfSome answer (λ inner. (at : Entered)
            → IsOf self.now.name.now self.now.origin at
            → IsInclusion pages.now.bundle.now at hash.now (action_of action.entry) left
            inner.page.now inner.stack)) }
        ensures unchanged { IfOk result (λ answer. IfSome answer (λ inner. unit.new ≡ unit.old)) }
        ensures cond { IfOk result (λ answer. IfSome answer (λ inner. IsNode store.new inner.cond
            × ((values : List Bool) → holds store.new inner.cond values
            ≡ ((holds store.old self.now.groups.cond values
            && is_processed (groups_in store.old self.now.groups values))
            && holds store.old unit.old.live values)))) }
    {
        let cond = self.processed(store, unit)?;
        if store.is_false(cond) {
            return Ok(None);
        }
        self.act(store, unit, pages, hash, action, left, cond)
    }
}
