//! Stacks.
ghost use Rattle.std.specs.Prelude.{◌≡◌, ◌↔◌, [], ◌∷◌, length, slice_get, List, reverse, IsTrue, IfNone, IfSome, OnOk, OnErr};
ghost use Rattle.std.specs.Option.{option_copied};

use crate::Memory;
use std::alloc::Global;
use std::marker::Model;

/// A stack. Contracts see it as the list of its items, of which the last pushed comes first.
#[derive(Debug, Drop)]
pub struct Stack<T> {
    items: Vec<T>,
}

impl<T> Model for Stack<T> {
    ghost use Rattle.std.specs.Prelude.{List as ListOf, reverse};
    ghost use Rattle.std.specs.Coded.{coded_list};

    ghost Value = { ListOf T };

    ghost coded = { coded_list T.code };

    ghost view = { λ stack. reverse stack.items.items };
}

impl<T> Stack<T> {
    /// The empty stack, which takes its memory from `alloc`.
    pub fn new(alloc: Global) -> Stack<T>
        ensures { result ≡ [] }
    {
        Stack {
            items: Vec::new(alloc),
        }
    }

    /// Takes the last pushed item off, or answers `None` where there is none.
    pub fn pop(&mut self) -> Option<T>
        ensures none { IfNone result ((self.old ≡ []) × (self.new ≡ [])) }
        ensures some { IfSome result (λ top. self.old ≡ top ∷ self.new) }
    {
        self.items.pop()
    }

    /// The last pushed item, or `None` where there is none.
    pub fn top(&self) -> Option<&T>
        ensures { option_copied result ≡ slice_get self.now 0 }
    {
        self.items.last()
    }

    /// All items, of which the first pushed comes first.
    pub fn as_slice(&self) -> &[T]
        ensures { result.now ≡ reverse self.now }
    {
        self.items.as_slice()
    }

    /// The number of items.
    pub fn len(&self) -> usize
        ensures { result ≡ length self.now }
    {
        self.items.len()
    }

    /// Whether there is no item.
    pub fn is_empty(&self) -> bool
        ensures { IsTrue result ↔ (self.now ≡ []) }
    {
        self.items.is_empty()
    }
}

impl<T: Drop> Stack<T> {
    /// Puts `item` on the stack; where memory runs out, drops it.
    pub fn push(&mut self, item: T) -> Result<(), Memory>
        ensures ok { OnOk result (self.new ≡ item ∷ self.old) }
        ensures unchanged { OnErr result (self.new ≡ self.old) }
    {
        self.items.push(item)?;
        Ok(())
    }

    /// Puts `item` in the place of the last pushed item, which it hands back; where there is none,
    /// it drops `item` and answers `None`.
    pub fn replace_top(&mut self, item: T) -> Option<T>
        ensures none { IfNone result ((self.old ≡ []) × (self.new ≡ [])) }
        ensures some { IfSome result (λ top.
            (rest : List T) × (self.old ≡ top ∷ rest) × (self.new ≡ item ∷ rest)) }
    {
        let top = self.items.pop()?;
        match self.items.push(item) {
            Ok(()) => Some(top),
            Err(_) => unreachable!(),
        }
    }
}
