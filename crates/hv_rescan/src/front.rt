//! The tokens that stand next in a text.
ghost use Rattle.std.specs.Prelude.{◌≡◌, ◌∷◌, [], ℕ, List, slice_get, IfOk, OnOk};
ghost use Rattle.std.specs.Option.{option_copied, option_map};
ghost use Rattle.hv_toks.specs.Macro.{Macro};
ghost use Rattle.hv_rescan.specs.Values.{token_of, tokens_of};
ghost use Rattle.hv_rescan.specs.working.Steps.{FindsArguments, Takes};

use crate::arguments::{Taken, find_arguments};
use crate::shared::Tokens;
use crate::token::Token;
use hv_base::{Memory, Stack};
use hv_toks::Body;
use std::alloc::Global;
use std::marker::Model;

/// The tokens that stand next in a text, but those of a run. Contracts see them as a list.
#[derive(Debug, Drop)]
pub struct Front {
    own: Stack<Token>,
    /// Those of a shared list come after its own.
    shared: Tokens,
}

impl Model for Front {
    ghost use Rattle.std.specs.Prelude.{◌++◌, List};
    ghost use Rattle.hv_rescan.specs.declared.token.Token.{Token};

    ghost Value = { List Token };

    ghost view = { λ f. f.own ++ f.shared };
}

impl Front {
    /// No tokens of a shared list.
    pub(crate) fn of_own(own: Stack<Token>) -> Front
        ensures { result ≡ own }
    {
        Front {
            own,
            shared: Tokens::none(),
        }
    }

    /// Only tokens of a shared list.
    pub(crate) fn of_shared(alloc: Global, shared: Tokens) -> Front
        ensures { result ≡ shared }
    {
        Front {
            own: Stack::new(alloc),
            shared,
        }
    }

    /// The token that stands next.
    pub(crate) fn top(&self) -> Option<&Token>
        ensures { option_copied result ≡ slice_get self.now 0 }
    {
        match self.own.top() {
            Some(token) => Some(token),
            None => self.shared.as_slice().first(),
        }
    }

    /// Puts a token before the others.
    pub(crate) fn push(&mut self, token: Token) -> Result<(), Memory>
        ensures { OnOk result (self.new ≡ token ∷ self.old) }
    {
        self.own.push(token)?;
        Ok(())
    }

    /// Takes off the token that stands next.
    pub(crate) fn pop(&mut self, alloc: Global) -> Result<Option<Token>, Memory>
        ensures { IfOk result (λ taken. (macros : List ℕ → Macro) → Takes
            (option_map (token_of macros) taken)
            (tokens_of macros self.old) (tokens_of macros self.new)) }
    {
        if let Some(token) = self.own.pop() {
            return Ok(Some(token));
        }
        let taken = self.shared.pop(alloc)?;
        Ok(taken)
    }

    /// Takes the arguments up to the matching `)`, where all of them stand in a shared list. They
    /// are parts of that list then.
    pub(crate) fn take_arguments(
        &mut self,
        alloc: Global,
        body: &Body,
    ) -> Result<Option<Taken>, Memory>
        ensures { IfOk result (λ taken. FindsArguments body.now taken self.old self.new) }
    {
        if !self.own.is_empty() {
            return Ok(None);
        }
        let Some(found) = find_arguments(alloc, body, &self.shared)? else {
            return Ok(None);
        };
        self.shared.skip(found.length);
        Ok(Some(found.taken))
    }
}
