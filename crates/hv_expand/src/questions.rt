//! What is asked of a name under a condition, which narrows to the configurations that answer
//! alike.
ghost use Rattle.std.specs.Prelude.{◌≡◌, ◌&&◌, true, AllPairs, Bool, List, ℕ, IfOk, IsTrue};
ghost use Rattle.hv_cond.specs.Diagram.{AllNodes, IsNever, IsNode, Keeps, holds};
ghost use Rattle.hv_macros.specs.Alternatives.{conditions, meanings};
ghost use Rattle.hv_macros.specs.Table.{IsTableOf, meaning_in};
ghost use Rattle.hv_toks.specs.Macro.{macro_of};
ghost use Rattle.hv_expand.specs.working.Questions.{IsAnswered, same_seen, seen, seen_of, some_alike};

use hv_base::{Memory, Place};
use hv_cond::{Cond, Store};
use hv_macros::{Alternative, MacroTable};
use hv_rescan::Following;
use hv_toks::{Body, Meaning};
use std::alloc::Global;

/// What is asked of a name.
#[derive(Clone, Copy, Debug, PartialEq, Eq)]
pub(crate) enum Question {
    /// What is done with it, where this follows.
    Deed(Following),
    /// Whether it is defined (ISO/IEC 9899:1999, 6.10.1).
    Defined,
}

/// What is seen of an answer.
#[derive(Clone, Copy)]
pub(crate) enum Seen<'a> {
    /// The name is given.
    Gives,
    /// The macro that is defined at this place is used.
    Uses(&'a Place),
    /// The episode is refused.
    Stops,
    /// Whether the name is defined.
    Tells(bool),
}

/// An answer: the meaning of the name in some configuration, and the configurations that answer as
/// it does.
#[derive(Drop)]
pub(crate) struct Answer {
    pub(crate) cond: Cond,
    pub(crate) meaning: Meaning,
}

/// Whether the same is seen of two answers.
fn is_same(one: Seen<'_>, other: Seen<'_>) -> bool
    ensures { result ≡ same_seen (seen_of one.entry) (seen_of other.entry) }
{
    match (one, other) {
        (Seen::Gives, Seen::Gives) | (Seen::Stops, Seen::Stops) => true,
        (Seen::Uses(place), Seen::Uses(other)) => place == other,
        (Seen::Tells(told), Seen::Tells(other)) => told == other,
        _ => false,
    }
}

/// What is seen of a name that means this.
fn see<'a>(question: Question, meaning: &'a Meaning) -> Seen<'a>
    ensures { seen_of result ≡ seen question (macro_of meaning.now) }
{
    match (question, meaning) {
        (Question::Defined, Meaning::Undefined) => Seen::Tells(false),
        (Question::Defined, Meaning::Defined { .. }) => Seen::Tells(true),
        (Question::Deed(_), Meaning::Undefined) => Seen::Gives,
        (Question::Deed(following), Meaning::Defined { place, body }) => match (
            &**body, following,
        ) {
            (Body::Object { .. }, _) => Seen::Uses(place),
            (Body::Function { .. }, Following::Parenthesis) => Seen::Uses(place),
            (Body::Function { .. }, Following::Otherwise) => Seen::Gives,
            (Body::Function { .. }, Following::Directive) => Seen::Stops,
        },
    }
}

/// The condition of the alternatives of which this is seen.
fn alike(
    store: &mut Store,
    parts: &[Alternative],
    question: Question,
    wanted: Seen<'_>,
) -> Result<Cond, Memory>
    requires { AllNodes store.old (conditions parts.now) }
    ensures keeps { Keeps store.old store.new }
    ensures node { IfOk result (λ c. IsNode store.new c) }
    ensures meaning { IfOk result (λ c. (values : List Bool) → holds store.new c values
        ≡ some_alike question (seen_of wanted.entry) (meanings store.old values parts.now)) }
{
    let mut whole = store.falsity();
    for part in parts {
        if is_same(see(question, &part.meaning), wanted) {
            whole = store.or(whole, part.cond)?;
        }
    }
    Ok(whole)
}

/// Asks a question of a name under a condition. The first alternative decides, and the condition
/// narrows to those of which the same is seen.
pub(crate) fn ask(
    alloc: Global,
    table: &MacroTable,
    store: &mut Store,
    cond: Cond,
    name: &[u8],
    question: Question,
) -> Result<Answer, Memory>
    requires cond { IsNode store.old cond }
    requires possible { IsNever store.old cond → ⊥ }
    requires table { IsTableOf store.old table.now }
    ensures keeps { Keeps store.old store.new }
    ensures node { IfOk result (λ answer. IsNode store.new answer.cond) }
    ensures answer { IfOk result (λ answer. IsAnswered store.old.variables
        (λ values. holds store.old cond values) (λ values. holds store.new answer.cond values)
        (λ values. meaning_in store.old table.now values name.now) question
        (macro_of answer.meaning)) }
{
    if table.is_no_macro(name) {
        return Ok(Answer {
            cond,
            meaning: Meaning::Undefined,
        });
    }
    let parts = table.alternatives(store, name, cond)?;
    let first = &parts.as_slice()[0];
    let cond = alike(
        store,
        parts.as_slice(),
        question,
        see(question, &first.meaning),
    )?;
    Ok(Answer {
        cond,
        meaning: first.meaning.copy(alloc)?,
    })
}
