//! Preprocessing tokens become tokens of C (5.1.1.2, phase 7).
ghost use Rattle.std.specs.Prelude.{◌≡◌, ◌++◌, ◌∷◌, [], All, Bool, List, IfOk, OnOk};
ghost use Rattle.hv_cond.specs.Diagram.{Diagram, IsNode, Keeps, holds};
ghost use Rattle.hv_cond.specs.declared.conditions.Cond.{Cond as CondOf};
ghost use Rattle.hv_cstream.specs.Streams.{IsConverted, IsRefused};
ghost use Rattle.hv_cstream.specs.working.Converting.{IsConverting, TakesOut, Tokens, entry_tokens, with_more};
ghost use Rattle.hv_given.specs.Refusals.{AreRefusals};
ghost use Rattle.hv_toks.specs.Division.{Sorts};

use hv_base::{CTok, List, Memory, Place, Start, Why};
use hv_cond::{Cond, Store};
use hv_ctoks::{ReservedNames, TokenFault, convert};
use hv_given::{Given, Refusals};
use hv_toks::{Parted, Stream, StreamTok};
use std::alloc::Global;

/// What is converted so far: the stream of the live configurations, and the refusals of the others.
#[derive(Drop)]
pub(crate) struct Conversion {
    alloc: Global,
    reserved: ReservedNames,
    live: Cond,
    stream: Stream,
    refusals: Refusals,
}

impl Conversion {
    fn new(alloc: Global, reserved: ReservedNames, live: Cond) -> Conversion
        ensures begun { (diagram : Diagram) → IsNode diagram live
            → IsConverting diagram live (λ values. []) result }
        ensures reserved { result.reserved ≡ reserved }
    {
        Conversion {
            alloc,
            reserved,
            live,
            stream: List::new(alloc),
            refusals: Refusals::new(alloc),
        }
    }

    /// Adds a token that an entry gives under a condition.
    fn give(&mut self, given: &Given, index: usize, tok: CTok, cond: Cond) -> Result<(), Memory>
        ensures { OnOk result (self.new ≡ record self.old {
          stream = self.old.stream ++ record {
            tok = tok;
            cond = cond;
            start = record { place = given.now.place; face = given.now.face; index = index };
          } ∷ [];
        }) }
    {
        let start = Start {
            place: given.place.copy(self.alloc)?,
            face: given.face,
            index: index as u64,
        };
        self.stream.add(StreamTok { tok, cond, start })
    }

    /// Refuses the configurations of a condition.
    fn refuse(
        &mut self,
        store: &mut Store,
        place: &Place,
        why: Why,
        cond: Cond,
    ) -> Result<(), Memory>
        requires cond { IsNode store.old cond }
        requires live { IsNode store.old self.old.live }
        requires refusals { AreRefusals store.old self.old.refusals }
        ensures keeps { Keeps store.old store.new }
        ensures out { OnOk result
            (TakesOut store.old store.new place.now why cond self.old self.new) }
    {
        let live = store.without(self.live, cond)?;
        self.refusals.add(store, place, why, cond)?;
        self.live = live;
        Ok(())
    }

    /// Converts the tokens that an entry gives, each once. Where one is refused, the configurations
    /// of the entry are, and its other tokens are left.
    fn entry(&mut self, store: &mut Store, given: &Given) -> Result<(), Memory>
        requires given { IsNode store.old given.now.cond }
        requires live { IsNode store.old self.old.live }
        requires refusals { AreRefusals store.old self.old.refusals }
        ensures keeps { Keeps store.old store.new }
        ensures reserved { OnOk result (self.new.reserved ≡ self.old.reserved) }
        ensures converted { OnOk result ((valid : CondOf) (tokens : Tokens)
            → IsConverting store.old valid tokens self.old
            → IsConverting store.new valid
            (with_more store.old tokens given.now.cond (entry_tokens given.now)) self.new) }
    {
        let cond = store.and(given.cond, self.live)?;
        if store.is_false(cond) {
            return Ok(());
        }
        for (index, token) in given.tokens.as_slice().iter().enumerate() {
            match convert(self.alloc, token, self.reserved) {
                Ok(tok) => self.give(given, index, tok, cond)?,
                Err(TokenFault::Plain(why)) => {
                    return self.refuse(store, &given.place, why, cond);
                }
                Err(TokenFault::Memory) => return Err(Memory),
            }
        }
        Ok(())
    }

    /// The stream, and what refuses the configurations that are live no more.
    fn finish(self) -> Result<Parted<Stream>, Memory>
        ensures good { IfOk result (λ parted. parted.good ≡ self.live) }
        ensures value { IfOk result (λ parted. parted.value ≡ self.stream) }
        ensures failing { IfOk result (λ parted. parted.failing ≡ self.refusals) }
    {
        Ok(Parted {
            good: self.live,
            value: self.stream,
            failing: self.refusals.into_failing()?,
        })
    }
}

/// The tokens of C that preprocessing tokens become one by one (5.1.1.2, phase 7), in the
/// configurations of `live`. One with a token that becomes none is refused at the place of the
/// token's episode, for the first such token.
pub fn convert_all(
    alloc: Global,
    store: &mut Store,
    given: &[Given],
    live: Cond,
    reserved: ReservedNames,
) -> Result<Parted<Stream>, Memory>
    requires live { IsNode store.old live }
    requires given { All (λ g. IsNode store.old g.cond) given.now }
    ensures keeps { Keeps store.old store.new }
    ensures conditions { IfOk result
        (λ parted. All (λ token. IsNode store.new token.cond) parted.value) }
    ensures sorted { IfOk result (Sorts store.new live (IsConverted reserved store.new given.now)
        (IsRefused reserved store.new given.now)) }
{
    let mut conversion = Conversion::new(alloc, reserved, live);
    for entry in given {
        conversion.entry(store, entry)?;
    }
    conversion.finish()
}
