//! The store of conditions.
ghost use Rattle.std.specs.Prelude.{◌≡◌, ◌↔◌, ℕ, ◌+◌, ◌*◌, ◌<◌, ◌≤◌, ◌&&◌, ◌||◌, not, true, false, Bool, List, length, IfOk, IfSome, IsNone, IsTrue};
ghost use Rattle.std.specs.List.{range_with_len};
ghost use Rattle.hv_cond.specs.declared.conditions.Node.TheVariants.{Falsity};
ghost use Rattle.hv_cond.specs.Order.{order_from};
ghost use Rattle.hv_cond.specs.Diagram.{AllNodes, AreDisjoint, Describes, Diagram, IsLeast, IsNever, IsNode, Keeps, Meet, SameMeaning, all_hold, holds, node, nodes, size, value_of};

use crate::complements::{Complements, complement};
use crate::conditions::{Cond, Node};
use crate::connectives::{Connective, combine};
use crate::meetings::meet;
use crate::nodes::{Decision, Nodes};
use crate::orders::Order;
use crate::results::Results;
use crate::{joins, paths};
use std::alloc::{AllocError, Global};
use std::marker::Model;

/// Conditions over a fixed number of variables, whose branches test them in one order. Equal
/// conditions are one node. A store only grows, and a node of it means the same for ever.
#[derive(Drop)]
pub struct Store {
    order: Order,
    nodes: Nodes,
    conjunctions: Results,
    disjunctions: Results,
    complements: Complements,
}

impl Model for Store {
    ghost use Rattle.hv_cond.specs.Diagram.{Diagram};

    ghost Value = { Diagram };

    ghost use Rattle.hv_cond.specs.working.Orders.{seen};
    ghost use Rattle.hv_cond.specs.working.Stores.{IsSound};

    ghost view = { λ s. seen s.order s.nodes };

    ghost invariant = { λ s. IsSound s.order s.nodes s.conjunctions s.disjunctions s.complements };
}

#[tactic(auto, unfolding(crate::specs::Diagram::IsNode, crate::specs::Diagram::holds, crate::specs::Diagram::node, crate::specs::Diagram::size))]
impl Store {
    /// A store of conditions over `vars` variables, with only truth and falsity. Its branches test
    /// the variables by number.
    pub fn new(alloc: Global, vars: u32) -> Result<Store, AllocError>
        ensures variables { IfOk result (λ store. store.variables ≡ vars) }
        ensures empty { IfOk result (λ store. size store ≡ 0) }
        ensures order { IfOk result (λ store. store.order ≡ range_with_len 0 vars) }
    {
        Store::ordered(alloc, vars, &[])
    }

    /// A store of conditions over `vars` variables, with only truth and falsity. Its branches test
    /// the variables of `first` in the order in which each stands there first, and after them the
    /// others by number. What is in `first` and no variable counts for nothing.
    pub fn ordered(alloc: Global, vars: u32, first: &[u32]) -> Result<Store, AllocError>
        ensures variables { IfOk result (λ store. store.variables ≡ vars) }
        ensures empty { IfOk result (λ store. size store ≡ 0) }
        ensures order { IfOk result (λ store. store.order ≡ order_from vars first.now) }
    {
        let order = Order::new(alloc, vars, first)?;
        Ok(Store {
            order,
            nodes: Nodes::new(alloc, vars),
            conjunctions: Results::new(alloc),
            disjunctions: Results::new(alloc),
            complements: Complements::new(alloc),
        })
    }

    /// The condition that always holds.
    pub fn truth(&self) -> Cond
        ensures node { IsNode self.now result }
        ensures meaning { (values : List Bool) → holds self.now result values ≡ true }
    {
        Cond::TRUTH
    }

    /// The condition that never holds.
    pub fn falsity(&self) -> Cond
        ensures node { IsNode self.now result }
        ensures meaning { (values : List Bool) → holds self.now result values ≡ false }
    {
        Cond::FALSITY
    }

    /// The condition that holds where a variable is true.
    pub fn var(&mut self, i: u32) -> Result<Cond, AllocError>
        requires { i < self.old.variables }
        ensures keeps { Keeps self.old self.new }
        ensures bound { size self.new ≤ size self.old + 1 }
        ensures node { IfOk result (IsNode self.new) }
        ensures meaning { IfOk result
            (λ c. (values : List Bool) → holds self.new c values ≡ value_of values i) }
    {
        self.nodes.branch(Decision {
            variable: self.order.position(i),
            low: Cond::FALSITY,
            high: Cond::TRUTH,
        })
    }

    /// The conjunction of two conditions.
    pub fn and(&mut self, a: Cond, b: Cond) -> Result<Cond, AllocError>
        requires first { IsNode self.old a }
        requires second { IsNode self.old b }
        ensures keeps { Keeps self.old self.new }
        ensures bound { size self.new
            ≤ size self.old + (nodes self.old a + 1) * (nodes self.old b + 1) }
        ensures node { IfOk result (IsNode self.new) }
        ensures meaning { IfOk result
            (λ c. (values : List Bool) →
            holds self.new c values ≡ (holds self.old a values && holds self.old b values)) }
    {
        self.conjunctions.trim(self.nodes.answers_kept());
        combine(
            &mut self.nodes,
            &mut self.conjunctions,
            Connective::And,
            a,
            b,
        )
    }

    /// The disjunction of two conditions.
    pub fn or(&mut self, a: Cond, b: Cond) -> Result<Cond, AllocError>
        requires first { IsNode self.old a }
        requires second { IsNode self.old b }
        ensures keeps { Keeps self.old self.new }
        ensures bound { size self.new
            ≤ size self.old + (nodes self.old a + 1) * (nodes self.old b + 1) }
        ensures node { IfOk result (IsNode self.new) }
        ensures meaning { IfOk result
            (λ c. (values : List Bool) →
            holds self.new c values ≡ (holds self.old a values || holds self.old b values)) }
    {
        self.disjunctions.trim(self.nodes.answers_kept());
        combine(
            &mut self.nodes,
            &mut self.disjunctions,
            Connective::Or,
            a,
            b,
        )
    }

    /// The complement of a condition.
    pub fn not(&mut self, a: Cond) -> Result<Cond, AllocError>
        requires { IsNode self.old a }
        ensures keeps { Keeps self.old self.new }
        ensures bound { size self.new ≤ size self.old + nodes self.old a }
        ensures node { IfOk result (IsNode self.new) }
        ensures meaning { IfOk result
            (λ c. (values : List Bool) → holds self.new c values ≡ not (holds self.old a values)) }
    {
        self.complements.trim(self.nodes.answers_kept());
        complement(&mut self.nodes, &mut self.complements, a)
    }

    /// What a condition says without another: the first holds and the second doesn't.
    pub fn without(&mut self, a: Cond, b: Cond) -> Result<Cond, AllocError>
        requires first { IsNode self.old a }
        requires second { IsNode self.old b }
        ensures keeps { Keeps self.old self.new }
        ensures node { IfOk result (IsNode self.new) }
        ensures meaning { IfOk result
            (λ c. (values : List Bool) → holds self.new c values
            ≡ (holds self.old a values && not (holds self.old b values))) }
    {
        let opposite = self.not(b)?;
        self.and(a, opposite)
    }

    /// The conjunction of these conditions, in whatever order they stand: they are joined so that
    /// no step makes anew what the steps before made, where each is about variables that stand near
    /// one another.
    pub fn all(&mut self, alloc: Global, parts: &[Cond]) -> Result<Cond, AllocError>
        requires { AllNodes self.old parts.now }
        ensures keeps { Keeps self.old self.new }
        ensures node { IfOk result (IsNode self.new) }
        ensures meaning { IfOk result
            (λ c. (values : List Bool) →
            holds self.new c values ≡ all_hold self.old parts.now values) }
    {
        joins::all(self, alloc, parts)
    }

    /// Whether some assignment satisfies both conditions. No branch is made, and the walk through
    /// pairs of branches ends at the first path that both allow; pairs that never hold together are
    /// kept as those of `and` are.
    pub fn meets(&mut self, a: Cond, b: Cond) -> Result<bool, AllocError>
        requires first { IsNode self.old a }
        requires second { IsNode self.old b }
        ensures unchanged { self.new ≡ self.old }
        ensures together { IfOk result (λ met. IsTrue met ↔ Meet self.old a b) }
        ensures apart { IfOk result (λ met. (met ≡ false) ↔ AreDisjoint self.old a b) }
    {
        self.conjunctions.trim(self.nodes.answers_kept());
        meet(&self.nodes, &mut self.conjunctions, a, b)
    }

    /// The place in the order of the variable that a condition tests first, or the number of
    /// variables.
    pub(crate) fn level(&self, c: Cond) -> u32
        requires { IsNode self.now c }
    {
        self.nodes.level(c)
    }

    /// Whether a condition holds where the variables have these values.
    pub fn eval(&self, c: Cond, values: &[bool]) -> bool
        requires node { IsNode self.now c }
        requires all_variables { length values.now ≡ self.now.variables }
        ensures { result ≡ holds self.now c values.now }
    {
        paths::eval(&self.order, &self.nodes, c, values)
    }

    /// Whether no assignment satisfies a condition.
    pub fn is_false(&self, c: Cond) -> bool
        requires { IsNode self.now c }
        ensures meaning { IsTrue result ↔ IsNever self.now c }
        ensures falsity { IsTrue result ↔ (node self.now c ≡ Falsity) }
    {
        // Brings the invariant into the proof.
        let _ = &self.nodes;
        c == Cond::FALSITY
    }

    /// Whether two conditions hold under the same assignments: they are then one node.
    pub fn same(&self, a: Cond, b: Cond) -> bool
        requires first { IsNode self.now a }
        requires second { IsNode self.now b }
        ensures meaning { IsTrue result ↔ SameMeaning self.now a b }
        ensures one_node { IsTrue result ↔ (a ≡ b) }
    {
        // Brings the invariant into the proof.
        let _ = &self.nodes;
        a == b
    }

    /// The first assignment that satisfies a condition, by the variables' numbers and false before
    /// true, or `None` where none does. The order of the store makes no difference.
    pub fn pick(&self, c: Cond) -> Result<Option<Vec<bool>>, AllocError>
        requires { IsNode self.now c }
        ensures none { IfOk result (λ found. IsNone found ↔ IsNever self.now c) }
        ensures least { IfOk result
            (λ found. IfSome found (λ values. IsLeast self.now c values.items)) }
    {
        paths::pick(&self.order, &self.nodes, c)
    }

    /// What a condition is: a terminal, or a branch on the variable of it that stands first in the
    /// store's order.
    pub fn node(&self, c: Cond) -> Node
        requires { IsNode self.now c }
        ensures node { result ≡ node self.now c }
        ensures described { Describes self.now c result }
    {
        match self.nodes.node(c) {
            Node::Branch { var, low, high } => Node::Branch {
                var: self.order.variable(var),
                low,
                high,
            },
            Node::Truth => Node::Truth,
            Node::Falsity => Node::Falsity,
        }
    }
}
