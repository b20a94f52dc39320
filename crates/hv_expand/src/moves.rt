//! What is done with a token under a condition.
ghost use Rattle.std.specs.Prelude.{◌≡◌, true, Bool, List, ℕ, IfOk};
ghost use Rattle.hv_cond.specs.Diagram.{IsNever, IsNode, Keeps, holds};
ghost use Rattle.hv_macros.specs.Table.{HasOneBody, IsTableOf, meaning_in};
ghost use Rattle.hv_plain.specs.episode.Expansion.{State, deed};
ghost use Rattle.hv_rescan.specs.Pending.{IsToken, next_of};
ghost use Rattle.hv_toks.specs.Macro.{macro_of};
ghost use Rattle.hv_toks.specs.declared.token.PpKind.{PpKind as PpKind'};
ghost use Rattle.hv_expand.specs.working.Moves.{IsMove, Says};

use crate::questions::{Question, ask};
use hv_base::Memory;
use hv_cond::{Cond, Store};
use hv_macros::MacroTable;
use hv_plain::RunEnd;
use hv_rescan::Following;
use hv_toks::{Body, Meaning};
use std::alloc::Global;
use std::rc::Rc;

/// What is done with a token.
#[derive(Debug, Drop)]
pub(crate) enum Deed {
    /// It is given.
    Give,
    /// It is a macro's name, and replaced.
    Use(Rc<Body>),
    /// It is the name of a function-like macro before a directive.
    Stop,
}

/// What is done with a token, in the configurations that do so.
#[derive(Debug, Drop)]
pub(crate) struct Move {
    pub(crate) cond: Cond,
    pub(crate) deed: Deed,
}

/// What is done with a name that means this.
pub(crate) fn decide(follows: Following, meaning: Meaning) -> Deed
    ensures { Says result (deed (next_of follows) (macro_of meaning)) }
{
    let Meaning::Defined { body, .. } = meaning else {
        return Deed::Give;
    };
    let is_function = matches!(&*body, Body::Function { .. });
    match follows {
        Following::Otherwise if is_function => Deed::Give,
        Following::Directive if is_function => Deed::Stop,
        _ => Deed::Use(body),
    }
}

/// What is done with a token under a condition, where only an open one may be a macro's name.
pub(crate) fn find_move(
    alloc: Global,
    table: &MacroTable,
    store: &mut Store,
    cond: Cond,
    text: &[u8],
    is_open: bool,
    follows: Following,
) -> Result<Move, Memory>
    requires cond { IsNode store.old cond }
    requires possible { IsNever store.old cond → ⊥ }
    requires table { IsTableOf store.old table.now }
    requires one_body { HasOneBody store.old table.now }
    ensures keeps { Keeps store.old store.new }
    ensures moves { IfOk result (λ found. (ends : RunEnd) (kind : PpKind')
        (state : List Bool → State) → ((v : List Bool)
        → IsToken ends kind text.now is_open (next_of follows) (state v))
        → IsMove store.new ends (λ v. meaning_in store.old table.now v)
        (λ v. holds store.old cond v) state found) }
{
    if !is_open {
        return Ok(Move {
            cond,
            deed: Deed::Give,
        });
    }
    let answer = ask(alloc, table, store, cond, text, Question::Deed(follows))?;
    Ok(Move {
        cond: answer.cond,
        deed: decide(follows, answer.meaning),
    })
}
