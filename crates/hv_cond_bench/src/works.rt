//! The works that can be asked for.
ghost use Rattle.std.specs.Prelude.{◌≡◌, ◌*◌, ◌≤◌, IfOk, IfSome};
ghost use Rattle.hv_cond.specs.Diagram.{IsNode, Keeps};
ghost use Rattle.hv_cond_bench.specs.Works.{limit};

use crate::branches::count_branches;
use crate::deep::deep;
use crate::pairs_and_chains::{chain, chain_by_and, pairs};
use crate::queens::queens;
use hv_cond::{Cond, Store};
use std::alloc::{AllocError, Global};

/// How many conjunctions `Work::Same` repeats.
const REPETITIONS: u32 = 1_000_000;

/// What is built.
#[derive(Clone, Copy, PartialEq, Eq, Debug)]
pub enum Work {
    /// A conjunction of disjunctions of two variables.
    Pairs,
    /// The placings of queens on a board of which none attacks another.
    Queens,
    /// A conjunction of implications from each variable to the next.
    Chain,
    /// The same, by one conjunction after another from the first implication on.
    ChainByAnd,
    /// A conjunction of two conditions of `Pairs`, made again and again.
    Same,
    /// The complement of the conjunction of all variables, by calls that go down all of them.
    Deep,
}

impl Work {
    /// The work of this name.
    pub fn from_name(name: &str) -> Option<Work> {
        match name {
            "pairs" => Some(Work::Pairs),
            "queens" => Some(Work::Queens),
            "chain" => Some(Work::Chain),
            "chain-by-and" => Some(Work::ChainByAnd),
            "same" => Some(Work::Same),
            "deep" => Some(Work::Deep),
            _ => None,
        }
    }

    /// The name of this work.
    pub fn name(self) -> &'static str {
        match self {
            Work::Pairs => "pairs",
            Work::Queens => "queens",
            Work::Chain => "chain",
            Work::ChainByAnd => "chain-by-and",
            Work::Same => "same",
            Work::Deep => "deep",
        }
    }

    /// The greatest number that this work takes.
    pub fn limit(self) -> u32
        ensures { result ≡ limit self }
    {
        match self {
            Work::Pairs | Work::Same => 1000,
            Work::Queens => 8,
            Work::Chain => 200_000,
            Work::ChainByAnd => 4000,
            Work::Deep => 4096,
        }
    }
}

/// The number that a word names, if this work takes it.
pub fn read_number(work: Work, word: &str) -> Option<u32>
    ensures { IfSome result (λ n. n ≤ limit work) }
{
    let n = word.parse::<u32>().ok()?;
    if n <= work.limit() { Some(n) } else { None }
}

/// How many branches are reached from the condition that this work builds.
pub fn run(alloc: Global, work: Work, n: u32) -> Result<usize, AllocError>
    requires { n ≤ limit work }
{
    match work {
        Work::Pairs => {
            let mut store = Store::new(alloc, 2 * n)?;
            let built = pairs(alloc, &mut store, n)?;
            count_branches(alloc, &store, built)
        }
        Work::Queens => {
            let mut store = Store::new(alloc, n * n)?;
            let built = queens(&mut store, n)?;
            count_branches(alloc, &store, built)
        }
        Work::Chain => {
            let mut store = Store::new(alloc, n + 1)?;
            let built = chain(alloc, &mut store, n)?;
            count_branches(alloc, &store, built)
        }
        Work::ChainByAnd => {
            let mut store = Store::new(alloc, n + 1)?;
            let built = chain_by_and(&mut store, n)?;
            count_branches(alloc, &store, built)
        }
        Work::Deep => {
            let mut store = Store::new(alloc, n)?;
            let built = deep(&mut store, n)?;
            count_branches(alloc, &store, built)
        }
        Work::Same => {
            let mut store = Store::new(alloc, 2 * n)?;
            let built = same(alloc, &mut store, n)?;
            count_branches(alloc, &store, built)
        }
    }
}

/// The conjunction of all pairs and of the first half of them, again and again.
fn same(alloc: Global, store: &mut Store, n: u32) -> Result<Cond, AllocError>
    requires room { 2 * n ≤ store.old.variables }
    requires small { n ≤ 1000 }
    ensures keeps { Keeps store.old store.new }
    ensures node { IfOk result (IsNode store.new) }
{
    let all = pairs(alloc, store, n)?;
    let half = pairs(alloc, store, n / 2)?;
    repeat(store, all, half)
}

/// The conjunction of two conditions, whose answer is known from the second time on.
fn repeat(store: &mut Store, a: Cond, b: Cond) -> Result<Cond, AllocError>
    requires first { IsNode store.old a }
    requires second { IsNode store.old b }
    ensures keeps { Keeps store.old store.new }
    ensures node { IfOk result (IsNode store.new) }
{
    let mut both = store.truth();
    for _ in 0..REPETITIONS {
        both = store.and(a, b)?;
    }
    Ok(both)
}
