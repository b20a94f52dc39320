//! Runs whose faces are known: whether a condition holds, and the values of options.
ghost use Rattle.std.specs.Prelude.{◌≡◌, ◌<◌, ◌≤◌, Bool, List, ℕ, IfOk};
ghost use Rattle.std.proofs.Common.{sym, subst, ◌∙◌};
ghost use Rattle.hv_cond.specs.Diagram.{IsNever, IsNode, Keeps, holds, value_of};
ghost use Rattle.hv_faces.specs.Faces.{IsClass};

use super::*;
use crate::classes::can_hold;
use hv_base::Memory;
use hv_cond::{Cond, Store};
use std::alloc::{AllocError, Global};
use std::test::Fail;

/// Runs that show whether a condition holds, and answer that.
#[derive(Drop)]
struct Shows {
    shown: Cond,
}

impl Runs for Shows {
    type Value = bool;

    ghost is_good = { λ diagram runs. IsNode diagram runs.shown };

    ghost same_face = { λ diagram runs values others.
        holds diagram runs.shown values ≡ holds diagram runs.shown others };

    ghost is_right = { λ diagram runs value values. holds diagram runs.shown values ≡ value };

    fn run(&self, store: &mut Store, cond: Cond) -> Result<Class<bool>, Memory> {
        let both = store.and(cond, self.shown)?;
        if can_hold(store, both) {
            Ok(Class {
                cond: both,
                value: true,
            })
        } else {
            Ok(Class { cond, value: false })
        }
    }

    ghost symmetric = { λ diagram runs values others same. sym same };

    ghost good_kept = { λ old new runs keeps good. keeps.stays runs.shown good };

    ghost face_kept = { λ old new runs values others keeps good. (
      λ same. sym (keeps.meaning runs.shown good values)
          ∙ (same ∙ keeps.meaning runs.shown good others),
      λ same. keeps.meaning runs.shown good values
          ∙ (same ∙ sym (keeps.meaning runs.shown good others)),
    ) };

    ghost right_kept = { λ old new runs value values keeps good right.
        sym (keeps.meaning runs.shown good values) ∙ right };
}

/// Runs that show the values of this many options.
#[derive(Drop)]
struct ShowsOptions {
    count: u32,
}

/// The part of a condition in which one option is on, or all of it where it is off everywhere.
fn narrow(store: &mut Store, cond: Cond, option: u32) -> Result<Cond, Memory>
    requires option { option < store.old.variables }
    requires node { IsNode store.old cond }
    requires possible { IsNever store.old cond → ⊥ }
    ensures keeps { Keeps store.old store.new }
    ensures class { IfOk result (IsClass store.new (λ values. holds store.old cond values)
        (λ values others. value_of values option ≡ value_of others option)) }
{
    let on = store.var(option)?;
    let both = store.and(cond, on)?;
    if can_hold(store, both) {
        Ok(both)
    } else {
        Ok(cond)
    }
}

impl Runs for ShowsOptions {
    type Value = ();

    ghost is_good = { λ diagram runs. runs.count ≤ diagram.variables };

    ghost same_face = { λ diagram runs values others. (i : ℕ) → i < runs.count
        → value_of values i ≡ value_of others i };

    ghost is_right = { λ diagram runs value values. Unit {0} };

    fn run(&self, store: &mut Store, cond: Cond) -> Result<Class<()>, Memory> {
        let count = self.count;
        let mut found = cond;
        let mut option = 0;
        while option < count {
            found = narrow(store, found, option)?;
            option += 1;
        }
        Ok(Class {
            cond: found,
            value: (),
        })
    }

    ghost symmetric = { λ diagram runs values others same i l. sym (same i l) };

    ghost good_kept = { λ old new runs keeps good.
        subst (λ n. runs.count ≤ n) (sym keeps.variables) good };

    ghost face_kept = { λ old new runs values others keeps good. (λ e. e, λ e. e) };

    ghost right_kept = { λ old new runs value values keeps good right. right };
}

/// How many classes there are where runs show all of so many options, and whether there are too
/// many.
fn count(alloc: Global, options: u32) -> Result<(usize, bool), Memory> {
    let mut store = Store::new(alloc, options)?;
    let runs = ShowsOptions { count: options };
    let cond = store.truth();
    match find_classes(alloc, &runs, &mut store, cond) {
        Ok(classes) => Ok((classes.len(), false)),
        Err(ClassesFault::TooMany { conds }) => Ok((conds.len(), true)),
        Err(ClassesFault::Memory) => Err(Memory),
    }
}

#[test]
fn a_class_for_each_value_of_the_options(rt: HostRuntime) -> Result<(), Fail> {
    let alloc = rt.alloc();
    for (options, classes, are_too_many) in [
        (0, 1, false),
        (1, 2, false),
        (6, 64, false),
        (10, 1_024, false),
        (11, 1_025, true),
        (12, 1_025, true),
    ] {
        let found = count(alloc, options);
        assert!(rt;
            matches!(found, Ok((n, over)) if n == classes && over == are_too_many),
            "{options} options"
        );
    }
    Ok(())
}

/// A condition over two options.
#[derive(Drop)]
enum Over {
    Nothing,
    Everything,
    First,
    Second,
    Either,
}

fn build(store: &mut Store, over: Over) -> Result<Cond, AllocError>
    requires { store.old.variables ≡ 2 }
    ensures keeps { Keeps store.old store.new }
    ensures node { IfOk result (IsNode store.new) }
{
    match over {
        Over::Nothing => Ok(store.falsity()),
        Over::Everything => Ok(store.truth()),
        Over::First => store.var(0),
        Over::Second => store.var(1),
        Over::Either => {
            let first = store.var(0)?;
            let second = store.var(1)?;
            store.or(first, second)
        }
    }
}

/// The values of the classes of a condition, where runs show whether another holds.
fn values(alloc: Global, cond: Over, shown: Over) -> Result<Vec<bool>, Fail> {
    let mut values = Vec::new(alloc);
    let mut store = Store::new(alloc, 2)?;
    let cond = build(&mut store, cond)?;
    let shown = build(&mut store, shown)?;
    let runs = Shows { shown };
    match find_classes(alloc, &runs, &mut store, cond) {
        Ok(classes) => {
            for class in classes.as_slice() {
                values.push(class.value)?;
            }
        }
        Err(_) => return Err(Fail::from("there are few classes")),
    }
    Ok(values)
}

#[test]
fn values_of_the_configurations(rt: HostRuntime) -> Result<(), Fail> {
    let alloc = rt.alloc();
    let both = [true, false];
    assert_eq!(rt;
        values(alloc, Over::Everything, Over::First)?.as_slice(),
        both.as_slice()
    );
    assert_eq!(rt;
        values(alloc, Over::Second, Over::First)?.as_slice(),
        both.as_slice()
    );
    assert_eq!(rt;
        values(alloc, Over::First, Over::Either)?.as_slice(),
        [true].as_slice()
    );
    assert_eq!(rt;
        values(alloc, Over::First, Over::Nothing)?.as_slice(),
        [false].as_slice()
    );
    assert_eq!(rt; values(alloc, Over::Nothing, Over::First)?.len(), 0);
    Ok(())
}
