//! String literals that may go on.
ghost use Rattle.std.specs.Prelude.{◌≡◌, ◌++◌, ◌∷◌, [], ◌&&◌, not, All, Bool, List, IfOk, OnOk, if◌then◌else◌};
ghost use Rattle.hv_cond.specs.Diagram.{IsNode, Keeps, holds};
ghost use Rattle.hv_cstream.specs.working.Joining.{Appends, AreNodes, WritesOut, open_in, shown, with_string};

use hv_base::{CTok, List, Memory, Start, Text};
use hv_cond::{Cond, Store};
use hv_toks::{Stream, StreamTok};
use std::alloc::Global;

/// A string literal of the configurations of a condition, as far as it is read. Another one next to
/// it makes it longer.
#[derive(Drop)]
pub(crate) struct Literal {
    pub(crate) cond: Cond,
    /// Where its first part comes from.
    pub(crate) start: Start,
    pub(crate) bytes: Text,
}

/// The parts of a condition inside and outside another.
fn parted(store: &mut Store, cond: Cond, other: Cond) -> Result<(Cond, Cond), Memory>
    requires cond { IsNode store.old cond }
    requires other { IsNode store.old other }
    ensures keeps { Keeps store.old store.new }
    ensures nodes { IfOk result
        (λ parts. IsNode store.new parts.0 × IsNode store.new parts.1) }
    ensures inside { IfOk result (λ parts. (values : List Bool) → holds store.new parts.0 values
        ≡ (holds store.old cond values && holds store.old other values)) }
    ensures outside { IfOk result (λ parts. (values : List Bool) → holds store.new parts.1 values
        ≡ (holds store.old cond values && not (holds store.old other values))) }
{
    let outside = store.without(cond, other)?;
    let inside = store.and(cond, other)?;
    Ok((inside, outside))
}

/// Keeps a literal open where its condition can hold.
pub(crate) fn keep(
    store: &Store,
    literals: &mut List<Literal>,
    literal: Literal,
) -> Result<(), Memory>
    requires node { IsNode store.now literal.cond }
    requires nodes { AreNodes store.now literals.old }
    ensures nodes { OnOk result (AreNodes store.now literals.new) }
    ensures kept { OnOk result ((values : List Bool) → open_in store.now literals.new values
        ≡ open_in store.now literals.old values ++ open_in store.now (literal ∷ []) values) }
{
    if store.is_false(literal.cond) {
        return Ok(());
    }
    literals.add(literal)
}

/// Keeps a copy of a literal open under another condition, where that can hold.
fn keep_copy(
    alloc: Global,
    store: &Store,
    literals: &mut List<Literal>,
    literal: &Literal,
    cond: Cond,
) -> Result<(), Memory>
    requires node { IsNode store.now cond }
    requires nodes { AreNodes store.now literals.old }
    ensures nodes { OnOk result (AreNodes store.now literals.new) }
    ensures kept { OnOk result ((values : List Bool) → open_in store.now literals.new values
        ≡ open_in store.now literals.old values
        ++ (if holds store.now cond values then shown literal.now ∷ [] else [])) }
{
    if store.is_false(cond) {
        return Ok(());
    }
    literals.add(Literal {
        cond,
        start: literal.start.copy(alloc)?,
        bytes: literal.bytes.copy(alloc)?,
    })
}

/// Puts a literal after others, longer by some bytes where a condition holds.
fn append(
    alloc: Global,
    store: &mut Store,
    literals: &mut List<Literal>,
    literal: Literal,
    cond: Cond,
    more: &[u8],
) -> Result<(), Memory>
    requires literal { IsNode store.old literal.cond }
    requires cond { IsNode store.old cond }
    requires nodes { AreNodes store.old literals.old }
    ensures keeps { Keeps store.old store.new }
    ensures appended { OnOk result (Appends store.old store.new cond more.now (literal ∷ [])
        literals.old literals.new) }
{
    let (inside, outside) = parted(store, literal.cond, cond)?;
    if store.is_false(inside) {
        return literals.add(literal);
    }
    keep_copy(alloc, store, literals, &literal, outside)?;
    let mut bytes = literal.bytes;
    bytes.extend_from_slice(more)?;
    literals.add(Literal {
        cond: inside,
        start: literal.start,
        bytes,
    })
}

/// Open literals, longer by some bytes where a condition holds.
pub(crate) fn append_all(
    alloc: Global,
    store: &mut Store,
    literals: List<Literal>,
    cond: Cond,
    more: &[u8],
) -> Result<List<Literal>, Memory>
    requires cond { IsNode store.old cond }
    requires nodes { AreNodes store.old literals }
    ensures keeps { Keeps store.old store.new }
    ensures appended { IfOk result (Appends store.old store.new cond more.now literals []) }
{
    let mut after = List::new(alloc);
    for literal in literals.into_vec() {
        append(alloc, store, &mut after, literal, cond, more)?;
    }
    Ok(after)
}

/// Puts a literal after others where a condition doesn't hold, and where it does writes it to a
/// stream.
fn write_out(
    alloc: Global,
    store: &mut Store,
    out: &mut Stream,
    literals: &mut List<Literal>,
    literal: Literal,
    cond: Cond,
) -> Result<(), Memory>
    requires literal { IsNode store.old literal.cond }
    requires cond { IsNode store.old cond }
    requires nodes { AreNodes store.old literals.old }
    requires out_nodes { All (λ token. IsNode store.old token.cond) out.old }
    ensures keeps { Keeps store.old store.new }
    ensures written { OnOk result (WritesOut store.old store.new cond (literal ∷ [])
        literals.old literals.new out.old out.new) }
{
    let (inside, outside) = parted(store, literal.cond, cond)?;
    if store.is_false(inside) {
        return literals.add(literal);
    }
    keep_copy(alloc, store, literals, &literal, outside)?;
    out.add(StreamTok {
        tok: CTok::Str(literal.bytes),
        cond: inside,
        start: literal.start,
    })
}

/// Writes open literals to a stream where a condition holds; what is left stays open.
pub(crate) fn write_out_all(
    alloc: Global,
    store: &mut Store,
    out: &mut Stream,
    literals: List<Literal>,
    cond: Cond,
) -> Result<List<Literal>, Memory>
    requires cond { IsNode store.old cond }
    requires nodes { AreNodes store.old literals }
    requires out_nodes { All (λ token. IsNode store.old token.cond) out.old }
    ensures keeps { Keeps store.old store.new }
    ensures written { IfOk result (λ after. WritesOut store.old store.new cond literals [] after
        out.old out.new) }
{
    let mut after = List::new(alloc);
    for literal in literals.into_vec() {
        write_out(alloc, store, out, &mut after, literal, cond)?;
    }
    Ok(after)
}
