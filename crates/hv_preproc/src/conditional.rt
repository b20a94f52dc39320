//! Directives that make groups (ISO/IEC 9899:1999, 6.10.1).
ghost use Rattle.std.specs.Prelude.{◌∷◌, ℕ, IfErr, OnOk};
ghost use Rattle.hv_cond.specs.Diagram.{Keeps};
ghost use Rattle.hv_directives.specs.Values.{conditional_of, question_of};
ghost use Rattle.hv_macros.specs.Table.{meaning_in};
ghost use Rattle.hv_plainpp.specs.Files.{Entered, place_of};
ghost use Rattle.hv_plainpp.specs.Groups.{answer, regrouped};
ghost use Rattle.hv_plainpp.specs.Directives.{elif, else_, endif, if_};
ghost use Rattle.hv_preproc.specs.working.Faults.{IfStops};
ghost use Rattle.hv_preproc.specs.working.Keys.{Rises, reached};
ghost use Rattle.hv_preproc.specs.working.OpenGroups.{AreGroups, groups_in};
ghost use Rattle.hv_preproc.specs.working.Openings.{IsSameFile};
ghost use Rattle.hv_preproc.specs.working.Parts.{AreRegrouped, group_part, tokens_on};
ghost use Rattle.hv_preproc.specs.working.Walk.{IsSound, IsUnit, Reads, Stops};
ghost use Rattle.hv_texts.specs.Readings.{IsOriginOf};

use crate::fault::WalkFault;
use crate::open_file::OpenFile;
use crate::unit::Unit;
use hv_base::{Memory, Why};
use hv_cond::Store;
use hv_directives::{Conditional, Question};
use hv_toks::PpTok;

impl OpenFile<'_> {
    /// `#if`, `#ifdef` and `#ifndef`: what they ask comes first, then whether the group is one too
    /// many.
    fn begin_group(
        &mut self,
        store: &mut Store,
        unit: &mut Unit,
        hash: &PpTok,
        question: Question<'_>,
    ) -> Result<(), WalkFault>
        requires groups { AreGroups store.old self.old.groups }
        requires unit { IsUnit store.old unit.old }
        ensures keeps { Keeps store.old store.new }
        ensures unit { OnOk result (IsUnit store.new unit.new) }
        ensures file { OnOk result (IsSameFile self.old self.new) }
        ensures groups { OnOk result (AreGroups store.new self.new.groups) }
        ensures read { OnOk result ((at : Entered) (low high : ℕ) → IsOriginOf self.old.origin at
            → Rises low high (hash.now ∷ tokens_on (if_ (question_of question.entry)))
            → IsSound store.old unit.old (reached at low)
            → Reads store.old store.new unit.old unit.new (reached at low) (reached at high)
            self.old.groups.cond
            (λ values. group_part at (groups_in store.old self.old.groups values) hash.now
            (if_ (question_of question.entry)))) }
        ensures regrouped { OnOk result ((at : Entered) → IsOriginOf self.old.origin at
            → AreRegrouped store.old store.new self.old.groups self.new.groups unit.new.live
            (λ values. regrouped at (meaning_in store.old unit.old.table values)
            (place_of at hash.now) (if_ (question_of question.entry)))) }
        ensures stops { IfErr result (IfStops (λ place conds. (at : Entered) (low high : ℕ)
            → IsOriginOf self.old.origin at
            → Rises low high (hash.now ∷ tokens_on (if_ (question_of question.entry)))
            → Stops store.old store.new unit.old (reached at low) self.old.groups.cond
            (λ values. group_part at (groups_in store.old self.old.groups values) hash.now
            (if_ (question_of question.entry)))
            place conds)) }
    {
        let place = self.place_of(hash)?;
        let truths = self.answer(store, unit, &place, question, self.groups.processed())?;
        if self.groups.is_full() {
            return Ok(self.refuse(store, unit, &place, Why::TooDeep)?);
        }
        Ok(self.groups.begin(place, truths)?)
    }

    /// `#elif`: its expression is evaluated only where no group was processed and one still may be.
    fn go_on(
        &mut self,
        store: &mut Store,
        unit: &mut Unit,
        hash: &PpTok,
        line: &[PpTok],
    ) -> Result<(), WalkFault>
        requires groups { AreGroups store.old self.old.groups }
        requires unit { IsUnit store.old unit.old }
        ensures keeps { Keeps store.old store.new }
        ensures unit { OnOk result (IsUnit store.new unit.new) }
        ensures file { OnOk result (IsSameFile self.old self.new) }
        ensures groups { OnOk result (AreGroups store.new self.new.groups) }
        ensures read { OnOk result ((at : Entered) (low high : ℕ) → IsOriginOf self.old.origin at
            → Rises low high (hash.now ∷ tokens_on (elif line.now))
            → IsSound store.old unit.old (reached at low)
            → Reads store.old store.new unit.old unit.new (reached at low) (reached at high)
            self.old.groups.cond
            (λ values. group_part at (groups_in store.old self.old.groups values) hash.now
            (elif line.now))) }
        ensures regrouped { OnOk result ((at : Entered) → IsOriginOf self.old.origin at
            → AreRegrouped store.old store.new self.old.groups self.new.groups unit.new.live
            (λ values. regrouped at (meaning_in store.old unit.old.table values)
            (place_of at hash.now) (elif line.now))) }
        ensures stops { IfErr result (IfStops (λ place conds. (at : Entered) (low high : ℕ)
            → IsOriginOf self.old.origin at
            → Rises low high (hash.now ∷ tokens_on (elif line.now))
            → Stops store.old store.new unit.old (reached at low) self.old.groups.cond
            (λ values. group_part at (groups_in store.old self.old.groups values) hash.now
            (elif line.now))
            place conds)) }
    {
        let place = self.place_of(hash)?;
        match self.groups.searching() {
            Some(searching) => {
                let truths = self.expression(store, unit, &place, line, searching)?;
                Ok(self.groups.go_on(truths)?)
            }
            None => Ok(self.refuse(store, unit, &place, Why::Unbalanced)?),
        }
    }

    /// `#else`.
    fn go_on_at_else(
        &mut self,
        store: &mut Store,
        unit: &mut Unit,
        hash: &PpTok,
    ) -> Result<(), Memory>
        requires groups { AreGroups store.old self.old.groups }
        requires unit { IsUnit store.old unit.old }
        ensures keeps { Keeps store.old store.new }
        ensures unit { OnOk result (IsUnit store.new unit.new) }
        ensures file { OnOk result (IsSameFile self.old self.new) }
        ensures groups { OnOk result (AreGroups store.new self.new.groups) }
        ensures read { OnOk result ((at : Entered) (low high : ℕ) → IsOriginOf self.old.origin at
            → Rises low high (hash.now ∷ tokens_on else_)
            → IsSound store.old unit.old (reached at low)
            → Reads store.old store.new unit.old unit.new (reached at low) (reached at high)
            self.old.groups.cond
            (λ values. group_part at (groups_in store.old self.old.groups values) hash.now else_)) }
        ensures regrouped { OnOk result ((at : Entered) → IsOriginOf self.old.origin at
            → AreRegrouped store.old store.new self.old.groups self.new.groups unit.new.live
            (λ values. regrouped at (meaning_in store.old unit.old.table values)
            (place_of at hash.now) else_)) }
    {
        match self.groups.searching() {
            Some(_) => self.groups.go_on_at_else(store),
            None => {
                let place = self.place_of(hash)?;
                self.refuse(store, unit, &place, Why::Unbalanced)
            }
        }
    }

    /// `#endif`.
    fn end_group(&mut self, store: &mut Store, unit: &mut Unit, hash: &PpTok) -> Result<(), Memory>
        requires groups { AreGroups store.old self.old.groups }
        requires unit { IsUnit store.old unit.old }
        ensures keeps { Keeps store.old store.new }
        ensures unit { OnOk result (IsUnit store.new unit.new) }
        ensures file { OnOk result (IsSameFile self.old self.new) }
        ensures groups { OnOk result (AreGroups store.new self.new.groups) }
        ensures read { OnOk result ((at : Entered) (low high : ℕ) → IsOriginOf self.old.origin at
            → Rises low high (hash.now ∷ tokens_on endif)
            → IsSound store.old unit.old (reached at low)
            → Reads store.old store.new unit.old unit.new (reached at low) (reached at high)
            self.old.groups.cond
            (λ values. group_part at (groups_in store.old self.old.groups values) hash.now endif)) }
        ensures regrouped { OnOk result ((at : Entered) → IsOriginOf self.old.origin at
            → AreRegrouped store.old store.new self.old.groups self.new.groups unit.new.live
            (λ values. regrouped at (meaning_in store.old unit.old.table values)
            (place_of at hash.now) endif)) }
    {
        if self.groups.opened().is_none() {
            let place = self.place_of(hash)?;
            return self.refuse(store, unit, &place, Why::Unbalanced);
        }
        self.groups.close();
        Ok(())
    }

    /// Does what a directive that makes groups, with this `#`, does to the open groups. A skipped
    /// one is followed for its nesting.
    pub(crate) fn regroup(
        &mut self,
        store: &mut Store,
        unit: &mut Unit,
        hash: &PpTok,
        conditional: Conditional<'_>,
    ) -> Result<(), WalkFault>
        requires groups { AreGroups store.old self.old.groups }
        requires unit { IsUnit store.old unit.old }
        ensures keeps { Keeps store.old store.new }
        ensures unit { OnOk result (IsUnit store.new unit.new) }
        ensures file { OnOk result (IsSameFile self.old self.new) }
        ensures groups { OnOk result (AreGroups store.new self.new.groups) }
        ensures read { OnOk result ((at : Entered) (low high : ℕ) → IsOriginOf self.old.origin at
            → Rises low high (hash.now ∷ tokens_on (conditional_of conditional.entry))
            → IsSound store.old unit.old (reached at low)
            → Reads store.old store.new unit.old unit.new (reached at low) (reached at high)
            self.old.groups.cond
            (λ values. group_part at (groups_in store.old self.old.groups values) hash.now
            (conditional_of conditional.entry))) }
        ensures regrouped { OnOk result ((at : Entered) → IsOriginOf self.old.origin at
            → AreRegrouped store.old store.new self.old.groups self.new.groups unit.new.live
            (λ values. regrouped at (meaning_in store.old unit.old.table values)
            (place_of at hash.now) (conditional_of conditional.entry))) }
        ensures stops { IfErr result (IfStops (λ place conds. (at : Entered) (low high : ℕ)
            → IsOriginOf self.old.origin at
            → Rises low high (hash.now ∷ tokens_on (conditional_of conditional.entry))
            → Stops store.old store.new unit.old (reached at low) self.old.groups.cond
            (λ values. group_part at (groups_in store.old self.old.groups values) hash.now
            (conditional_of conditional.entry))
            place conds)) }
    {
        match conditional {
            Conditional::If(question) => self.begin_group(store, unit, hash, question),
            Conditional::Elif(line) => self.go_on(store, unit, hash, line),
            Conditional::Else => Ok(self.go_on_at_else(store, unit, hash)?),
            Conditional::Endif => Ok(self.end_group(store, unit, hash)?),
        }
    }
}
