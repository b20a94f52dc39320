//! Tokens of a list that is shared.
ghost use Rattle.std.specs.Prelude.{◌≡◌, ◌≤◌, ◌-◌, [], ℕ, List, drop, length, take, IfOk};
ghost use Rattle.std.specs.Option.{option_map};
ghost use Rattle.hv_toks.specs.Macro.{Macro};
ghost use Rattle.hv_rescan.specs.Values.{token_of, tokens_of};
ghost use Rattle.hv_rescan.specs.working.Shared.{listed};
ghost use Rattle.hv_rescan.specs.working.Steps.{Takes};

use crate::token::Token;
use hv_base::{List, Memory};
use std::alloc::Global;
use std::marker::Model;
use std::rc::Rc;

/// Tokens that stand in a row in a list. The list is shared, so that an argument that stands within
/// another one is taken without copying a token. Contracts see these tokens alone.
#[derive(Debug, Drop)]
pub struct Tokens {
    /// Where there is none, there is no token.
    list: Option<Rc<List<Token>>>,
    begin: usize,
    end: usize,
}

impl Model for Tokens {
    ghost use Rattle.std.specs.Prelude.{◌≤◌, ◌-◌, List, drop, length, take};
    ghost use Rattle.hv_rescan.specs.declared.token.Token.{Token};
    ghost use Rattle.hv_rescan.specs.working.Shared.{listed};

    ghost Value = { List Token };

    ghost view = { λ t. take (t.end - t.begin) (drop t.begin (listed t.list)) };

    ghost invariant = { λ t. (t.begin ≤ t.end) × (t.end ≤ length (listed t.list)) };
}

/// The same list, held once more.
fn again(list: &Option<Rc<List<Token>>>) -> Result<Option<Rc<List<Token>>>, Memory>
    ensures { IfOk result (λ again. listed again ≡ listed list.now) }
{
    match list {
        None => Ok(None),
        Some(list) => Ok(Some(list.clone()?)),
    }
}

impl Tokens {
    /// No tokens.
    pub(crate) fn none() -> Tokens
        ensures { result ≡ [] }
    {
        Tokens {
            list: None,
            begin: 0,
            end: 0,
        }
    }

    /// All of these tokens.
    pub(crate) fn all(alloc: Global, tokens: Vec<Token>) -> Result<Tokens, Memory>
        ensures { IfOk result (λ all. all ≡ tokens.items) }
    {
        let list = List::from_vec(tokens);
        let end = list.len();
        Ok(Tokens {
            list: Some(Rc::new(alloc, list)?),
            begin: 0,
            end,
        })
    }

    pub(crate) fn as_slice(&self) -> &[Token]
        ensures { result.now ≡ self.now }
    {
        match &self.list {
            None => &[],
            Some(list) => &list.as_slice()[self.begin..self.end],
        }
    }

    /// The tokens between two indices.
    pub(crate) fn part(&self, from: usize, to: usize) -> Result<Tokens, Memory>
        requires ordered { from ≤ to }
        requires within { to ≤ length self.now }
        ensures { IfOk result (λ part. part ≡ take (to - from) (drop from self.now)) }
    {
        let (begin, end) = (self.begin, self.end);
        prove!(to <= end - begin);
        Ok(Tokens {
            list: again(&self.list)?,
            begin: begin + from,
            end: begin + to,
        })
    }

    /// The same tokens.
    pub(crate) fn copy(&self) -> Result<Tokens, Memory>
        ensures { IfOk result (λ copy. copy ≡ self.now) }
    {
        Ok(Tokens {
            list: again(&self.list)?,
            begin: self.begin,
            end: self.end,
        })
    }

    /// Takes so many tokens off at the front.
    pub(crate) fn skip(&mut self, count: usize)
        requires { count ≤ length self.old }
        ensures { self.new ≡ drop count self.old }
    {
        self.begin += count;
    }

    /// Takes the first token off.
    pub(crate) fn pop(&mut self, alloc: Global) -> Result<Option<Token>, Memory>
        ensures { IfOk result (λ taken. (macros : List ℕ → Macro) → Takes
            (option_map (token_of macros) taken)
            (tokens_of macros self.old) (tokens_of macros self.new)) }
    {
        let [first, ..] = self.as_slice() else {
            return Ok(None);
        };
        let first = first.copy(alloc)?;
        self.skip(1);
        Ok(Some(first))
    }
}
