//! Conditional groups (ISO/IEC 9899:1999, 6.10.1) under all configurations of a file's condition.
ghost use Rattle.std.specs.Prelude.{◌≡◌, ◌&&◌, ◌∷◌, [], false, not, Bool, List, OnOk, drop, length, nat_lt, slice_get};
ghost use Rattle.std.specs.Option.{option_copied, option_map};
ghost use Rattle.hv_base.specs.declared.limits.TheConstants.{MOST_GROUPS};
ghost use Rattle.hv_cond.specs.Diagram.{Diagram, IsNode, holds};
ghost use Rattle.hv_plainpp.specs.Groups.{is_processed};
ghost use Rattle.hv_preproc.specs.working.OpenGroups.{AreGroups, GoesOn, GoesOnAtElse, groups_in, searching_of};

use hv_base::{MOST_GROUPS, Memory, Place, Stack};
use hv_cond::{Cond, Store};
use hv_texts::Truths;
use std::alloc::Global;

/// An `#if`, `#ifdef` or `#ifndef` without its `#endif` so far. It is one for all configurations of
/// its file: what is skipped is followed for its nesting. Of configurations that are refused it
/// says nothing.
#[derive(Debug, Drop)]
pub(crate) struct OpenGroup {
    /// The place of its `#`.
    pub(crate) opened: Place,
    /// Where the present group is processed.
    pub(crate) active: Cond,
    /// Where none of its groups was processed so far, and a later one may be.
    pub(crate) searching: Cond,
    /// Whether its `#else` was met.
    pub(crate) after_else: bool,
}

/// The open groups of a file that is read in the configurations of a condition.
#[derive(Debug, Drop)]
pub(crate) struct Groups {
    /// The configurations in which the file is read.
    pub(crate) cond: Cond,
    pub(crate) groups: Stack<OpenGroup>,
}

impl Groups {
    /// No group is open.
    pub(crate) fn new(alloc: Global, cond: Cond) -> Groups
        ensures cond { result.cond ≡ cond }
        ensures none { result.groups ≡ [] }
    {
        Groups {
            cond,
            groups: Stack::new(alloc),
        }
    }

    /// The configurations in which lines are processed.
    pub(crate) fn processed(&self) -> Cond
        ensures node { (diagram : Diagram) → AreGroups diagram self.now → IsNode diagram result }
        ensures meaning { (diagram : Diagram) → AreGroups diagram self.now → (values : List Bool)
            → holds diagram result values
            ≡ (holds diagram self.now.cond values
            && is_processed (groups_in diagram self.now values)) }
    {
        match self.groups.top() {
            Some(group) => group.active,
            None => self.cond,
        }
    }

    /// Whether no further group may be opened.
    pub(crate) fn is_full(&self) -> bool
        ensures { result ≡ not (nat_lt (length self.now.groups) MOST_GROUPS) }
    {
        self.groups.len() >= MOST_GROUPS
    }

    /// The place of the `#` that opened the innermost group; `None` where none is open.
    pub(crate) fn opened(&self) -> Option<&Place>
        ensures { option_copied result ≡ option_map (λ g. g.opened) (slice_get self.now.groups 0) }
    {
        match self.groups.top() {
            Some(group) => Some(&group.opened),
            None => None,
        }
    }

    /// Where an `#elif` or `#else` is asked: the configurations in which no group was processed and
    /// one still may be. `None` where no group is open, or its `#else` was met.
    pub(crate) fn searching(&self) -> Option<Cond>
        ensures { result ≡ searching_of self.now.groups }
    {
        match self.groups.top() {
            Some(group) if !group.after_else => Some(group.searching),
            _ => None,
        }
    }

    /// Opens a group at an `#if` whose line is true or not as these conditions say; where neither
    /// holds the whole of it is skipped.
    pub(crate) fn begin(&mut self, opened: Place, truths: Truths) -> Result<(), Memory>
        ensures { OnOk result (self.new ≡ record self.old {
          groups = record {
            opened = opened;
            active = truths.holds;
            searching = truths.fails;
            after_else = false;
          } ∷ self.old.groups;
        }) }
    {
        self.groups.push(OpenGroup {
            opened,
            active: truths.holds,
            searching: truths.fails,
            after_else: false,
        })
    }

    /// Goes on with the innermost group at an `#elif` whose line is true or not as these conditions
    /// say; where neither holds no further group of it is processed.
    pub(crate) fn go_on(&mut self, truths: Truths) -> Result<(), Memory>
        ensures { OnOk result (GoesOn self.old self.new truths.holds truths.fails) }
    {
        let Some(group) = self.groups.pop() else {
            return Ok(());
        };
        self.groups.push(OpenGroup {
            opened: group.opened,
            active: truths.holds,
            searching: truths.fails,
            after_else: group.after_else,
        })
    }

    /// Goes on with the innermost group at its `#else`.
    pub(crate) fn go_on_at_else(&mut self, store: &Store) -> Result<(), Memory>
        ensures { OnOk result (GoesOnAtElse store.now self.old self.new) }
    {
        let Some(group) = self.groups.pop() else {
            return Ok(());
        };
        self.groups.push(OpenGroup {
            opened: group.opened,
            active: group.searching,
            searching: store.falsity(),
            after_else: true,
        })
    }

    /// Closes the innermost group.
    pub(crate) fn close(&mut self)
        ensures { self.new ≡ record self.old { groups = drop 1 self.old.groups } }
    {
        let _ = self.groups.pop();
    }
}
