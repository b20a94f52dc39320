//! Adjacent string literals are joined (5.1.1.2, phase 6).
ghost use Rattle.std.specs.Prelude.{◌≡◌, ◌++◌, ◌∷◌, [], ◌&&◌, true, false, All, Bool, List, IfOk, if◌then◌else◌};
ghost use Rattle.hv_base.specs.declared.place.Start.{Start as StartOf};
ghost use Rattle.hv_base.specs.declared.token.CTok.{CTok as CTokOf};
ghost use Rattle.hv_cond.specs.Diagram.{IsNode, Keeps, holds};
ghost use Rattle.hv_cond.specs.declared.conditions.Cond.{Cond as CondOf};
ghost use Rattle.hv_cstream.specs.Streams.{stream_in};
ghost use Rattle.hv_cstream.specs.working.Joining.{AreNodes, IsJoining, is_none, open_in, with_string};
ghost use Rattle.hv_ctoks.specs.Joining.{joined};

use crate::literal::{Literal, append_all, keep, write_out_all};
use hv_base::{CTok, List, Memory, Start, Text};
use hv_cond::{Cond, Store};
use hv_toks::{Stream, StreamTok};
use std::alloc::Global;

/// Literals with more values than these under all configurations end in out of memory: each option
/// doubles the values of a literal that has a part under it.
const MOST_LITERALS: usize = 65_536;

/// A condition without those of open literals.
fn outside_all(store: &mut Store, literals: &[Literal], cond: Cond) -> Result<Cond, Memory>
    requires cond { IsNode store.old cond }
    requires nodes { AreNodes store.old literals.now }
    ensures keeps { Keeps store.old store.new }
    ensures node { IfOk result (λ c. IsNode store.new c) }
    ensures outside { IfOk result (λ c. (values : List Bool) → holds store.new c values
        ≡ (holds store.old cond values && is_none (open_in store.old literals.now values))) }
{
    let mut rest = cond;
    for literal in literals {
        rest = store.without(rest, literal.cond)?;
    }
    Ok(rest)
}

/// A string literal under a condition: open ones go on there, and where there is none it is open.
fn take_string(
    alloc: Global,
    store: &mut Store,
    literals: List<Literal>,
    cond: Cond,
    start: Start,
    bytes: Text,
) -> Result<List<Literal>, Memory>
    requires cond { IsNode store.old cond }
    requires nodes { AreNodes store.old literals }
    ensures keeps { Keeps store.old store.new }
    ensures nodes { IfOk result (λ after. AreNodes store.new after) }
    ensures taken { IfOk result (λ after. (values : List Bool) → open_in store.new after values
        ≡ (if holds store.old cond values then with_string bytes start
        (open_in store.old literals values) else open_in store.old literals values)) }
{
    let rest = outside_all(store, literals.as_slice(), cond)?;
    let mut after = append_all(alloc, store, literals, cond, bytes.as_slice())?;
    let literal = Literal {
        cond: rest,
        start,
        bytes,
    };
    keep(store, &mut after, literal)?;
    if after.len() > MOST_LITERALS {
        return Err(Memory);
    }
    Ok(after)
}

/// Another token: the literals that are open where it is are written before it.
fn take_other(
    alloc: Global,
    store: &mut Store,
    out: &mut Stream,
    literals: List<Literal>,
    token: StreamTok,
) -> Result<List<Literal>, Memory>
    requires cond { IsNode store.old token.cond }
    requires nodes { AreNodes store.old literals }
    requires out_nodes { All (λ token. IsNode store.old token.cond) out.old }
    ensures keeps { Keeps store.old store.new }
    ensures nodes { IfOk result (λ after. AreNodes store.new after) }
    ensures out_nodes { IfOk result (λ _. All (λ token. IsNode store.new token.cond) out.new) }
    ensures ended { IfOk result (λ after. (values : List Bool) → open_in store.new after values
        ≡ (if holds store.old token.cond values then [] else open_in store.old literals values)) }
    ensures written { IfOk result (λ _. (values : List Bool) → stream_in store.new out.new values
        ≡ stream_in store.old out.old values
        ++ (if holds store.old token.cond values
        then open_in store.old literals values ++ (token.tok, token.start) ∷ [] else [])) }
{
    let after = write_out_all(alloc, store, out, literals, token.cond)?;
    out.add(token)?;
    Ok(after)
}

/// The next token of a stream.
fn take(
    alloc: Global,
    store: &mut Store,
    good: Cond,
    out: &mut Stream,
    literals: List<Literal>,
    token: StreamTok,
) -> Result<List<Literal>, Memory>
    requires token { IsNode store.old token.cond }
    requires good { IsNode store.old good }
    requires nodes { AreNodes store.old literals }
    requires out_nodes { All (λ token. IsNode store.old token.cond) out.old }
    ensures keeps { Keeps store.old store.new }
    ensures joined { IfOk result (λ after. (tokens : List Bool → List (CTokOf × StartOf))
        → IsJoining store.old good tokens out.old literals
        → IsJoining store.new good (λ values. tokens values
        ++ (if holds store.old token.cond values then (token.tok, token.start) ∷ [] else []))
        out.new after) }
{
    let cond = store.and(token.cond, good)?;
    if store.is_false(cond) {
        return Ok(literals);
    }
    let start = token.start;
    match token.tok {
        CTok::Str(bytes) => take_string(alloc, store, literals, cond, start, bytes),
        tok => take_other(alloc, store, out, literals, StreamTok { tok, cond, start }),
    }
}

/// The stream with adjacent string literals joined (5.1.1.2, phase 6), in the configurations of
/// `good`. A joined literal stands after all its parts, and has a token for each value that it has
/// under some configurations. Beyond 65,536 values that are open at once: out of memory.
pub fn join_strings(
    alloc: Global,
    store: &mut Store,
    good: Cond,
    stream: Stream,
) -> Result<Stream, Memory>
    requires good { IsNode store.old good }
    requires conditions { All (λ token. IsNode store.old token.cond) stream }
    ensures keeps { Keeps store.old store.new }
    ensures conditions { IfOk result (λ out. All (λ token. IsNode store.new token.cond) out) }
    ensures joined { IfOk result (λ out. (values : List Bool) → holds store.new good values ≡ true
        → stream_in store.new out values ≡ joined (stream_in store.old stream values)) }
{
    let mut out = List::new(alloc);
    let mut literals = List::new(alloc);
    for token in stream.into_vec() {
        literals = take(alloc, store, good, &mut out, literals, token)?;
    }
    write_out_all(alloc, store, &mut out, literals, good)?;
    Ok(out)
}
