//! The answers that were computed, so that no pair of nodes is visited twice.
ghost use Rattle.std.specs.Prelude.{◌≡◌, ◌<◌, if◌then◌else◌, IfOk, OnOk};
ghost use Rattle.hv_cond.specs.working.Results.{known, ordered_pair, room, is_same_pair};
ghost use Rattle.std.specs.declared.option.Option.TheVariants.{Some, None};

use crate::conditions::Cond;
use std::alloc::{AllocError, Global};
use std::collections::HashMap;

/// The answers of a connective at pairs of conditions, whose order does not matter.
#[derive(Drop)]
pub(crate) struct Results {
    pub(crate) answers: HashMap<(Cond, Cond), Cond>,
}

/// The two conditions, the older one first.
fn ordered(a: Cond, b: Cond) -> (Cond, Cond)
    ensures { result ≡ ordered_pair a b }
{
    if b.index < a.index { (b, a) } else { (a, b) }
}

impl Results {
    pub(crate) fn new(alloc: Global) -> Results
        ensures { (x y : Cond) → known result x y ≡ None }
    {
        Results {
            answers: HashMap::new(alloc),
        }
    }

    /// Forgets the answers, if there are more than some: what is kept from one call to the next
    /// goes with the number of nodes.
    pub(crate) fn trim(&mut self, most: usize)
        ensures { (x y c : Cond) → known self.new x y ≡ Some c → known self.old x y ≡ Some c }
    {
        if self.answers.len() > most {
            self.answers.clear();
        }
    }

    pub(crate) fn find(&self, a: Cond, b: Cond) -> Option<Cond>
        ensures { result ≡ known self.now a b }
    {
        let key = ordered(a, b);
        self.answers.get(&key).copied()
    }

    /// Makes room for one more answer.
    pub(crate) fn make_room(&mut self) -> Result<(), AllocError>
        ensures same { (x y : Cond) → known self.new x y ≡ known self.old x y }
        ensures ok { OnOk result (0 < room self.new) }
    {
        self.answers.reserve(1)
    }

    /// Keeps an answer, for which there is room.
    pub(crate) fn record(&mut self, a: Cond, b: Cond, answer: Cond)
        requires { 0 < room self.old }
        ensures { (x y : Cond) →
            known self.new x y
            ≡ (if is_same_pair a b x y then Some answer else known self.old x y) }
    {
        let Ok(_) = self.answers.insert(ordered(a, b), answer) else {
            unreachable!()
        };
    }
}
