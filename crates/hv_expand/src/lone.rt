//! Episodes that give their first token and nothing else, in each configuration. Most tokens of a
//! text are such, so they are answered without a machine.
ghost use Rattle.std.specs.Prelude.{◌≡◌, ◌≢◌, ◌<◌, length, IfOk, IfSome, IsTrue};
ghost use Rattle.hv_cond.specs.Diagram.{IsNode};
ghost use Rattle.hv_plain.specs.declared.episode.RunEnd.TheVariants.{Line};
ghost use Rattle.hv_plain.specs.episode.Tokens.{given_token, source_token};
ghost use Rattle.hv_toks.specs.Spelled.{spelled};
ghost use Rattle.hv_expand.specs.working.Lone.{IsLone, IsLoneOutcome, IsNoName};

use crate::outcome::{Expanded, Outcome};
use hv_base::{List, Memory, Text};
use hv_cond::{Cond, Store};
use hv_macros::MacroTable;
use hv_plain::RunEnd;
use hv_toks::{PpKind, PpTok};
use std::alloc::Global;

/// Whether a token is no macro's name in any configuration.
fn is_no_name(table: &MacroTable, token: &PpTok) -> bool
    ensures { IsTrue result → IsNoName table.now token.now }
{
    token.kind != PpKind::Identifier || table.is_no_macro(token.text.as_slice())
}

/// Whether an episode ends with its first token where that is no macro's name. On a controlling
/// line all tokens are one episode (ISO/IEC 9899:1999, 6.10.1).
fn is_text(ends: RunEnd) -> bool
    ensures { IsTrue result → ends ≢ Line }
{
    match ends {
        RunEnd::Line => false,
        RunEnd::Directive | RunEnd::FileEnd => true,
    }
}

/// The first token of the episode at a position of a run, where the episode gives it and nothing
/// else in each configuration of the condition, of which there are some.
pub(crate) fn lone_token<'a>(
    store: &Store,
    table: &MacroTable,
    run: &'a [PpTok],
    ends: RunEnd,
    at: usize,
    cond: Cond,
) -> Option<&'a PpTok>
    requires within { at < length run.now }
    requires cond { IsNode store.now cond }
    ensures { IfSome result
        (λ token. IsLone store.now ends run.now at table.now cond token.now) }
{
    let token = &run[at];
    if is_text(ends) && is_no_name(table, token) && !store.is_false(cond) {
        Some(token)
    } else {
        None
    }
}

/// The token that an episode gives of its first one, which is not said to be the first of a line.
fn give(alloc: Global, token: &PpTok) -> Result<PpTok, Memory>
    ensures { IfOk result (λ given. spelled given ≡ given_token (source_token token.now)) }
{
    Ok(PpTok {
        kind: token.kind,
        span: token.span,
        text: Text::from_slice(alloc, token.text.as_slice())?,
        space: token.space || token.first,
        first: false,
    })
}

/// The only outcome of an episode that gives this token and nothing else.
pub(crate) fn lone_outcome(
    alloc: Global,
    token: &PpTok,
    end: usize,
    cond: Cond,
) -> Result<List<Outcome>, Memory>
    ensures { IfOk result (IsLoneOutcome token.now end cond) }
{
    let mut tokens = List::new(alloc);
    tokens.add(give(alloc, token)?)?;
    let mut outcomes = List::new(alloc);
    outcomes.add(Outcome {
        cond,
        face: 0,
        result: Expanded::Tokens(tokens),
        end,
    })?;
    Ok(outcomes)
}
