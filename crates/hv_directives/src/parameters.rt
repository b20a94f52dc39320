//! The parameters of a function-like macro (ISO/IEC 9899:1999, 6.10.3, paragraph 10).
ghost use Rattle.std.specs.Prelude.{◌≡◌, ◌∷◌, List, IfOk};
ghost use Rattle.std.specs.Option.{option_map};
ghost use Rattle.hv_plainpp.specs.Definitions as definitions;
ghost use Rattle.hv_toks.specs.declared.token.PpTok.{PpTok as Tok};
ghost use Rattle.hv_directives.specs.working.Steps.{after_pair, parameters_of};

use hv_base::{List, Memory, Text};
use hv_toks::{PpKind, PpTok};
use std::alloc::Global;

/// The parameters of a function-like macro without `...`, whether it has `...`, and what follows
/// the `)`.
#[derive(Drop)]
pub(crate) struct Parameters<'a> {
    pub(crate) names: List<Text>,
    pub(crate) variadic: bool,
    pub(crate) after: &'a [PpTok],
}

/// What two tokens of a parameter list are.
#[derive(Clone, Copy)]
enum Pair {
    /// `...` and `)`.
    Variadic,
    /// A parameter and `)`.
    Last,
    /// A parameter and a comma.
    Next,
    /// Something else, which no parameter list has here.
    Malformed,
}

/// What two tokens of a parameter list are.
fn read_pair(token: &PpTok, mark: &PpTok) -> Pair
    ensures { (after : List Tok) → definitions.some_parameters (token.now ∷ mark.now ∷ after)
        ≡ after_pair result token.now.text after }
{
    let closes = mark.text.as_slice() == b")".as_slice();
    if token.text.as_slice() == b"...".as_slice() {
        return if closes {
            Pair::Variadic
        } else {
            Pair::Malformed
        };
    }
    if token.kind != PpKind::Identifier {
        return Pair::Malformed;
    }
    if closes {
        return Pair::Last;
    }
    if mark.text.as_slice() == b",".as_slice() {
        return Pair::Next;
    }
    Pair::Malformed
}

/// A list of one parameter at least, or of `...` alone, up to its `)`; `None` where the tokens
/// don't begin so.
fn some_parameters<'a>(alloc: Global, tokens: &'a [PpTok]) -> Result<Option<Parameters<'a>>, Memory>
    ensures { IfOk result (λ ps.
        option_map parameters_of ps ≡ definitions.some_parameters tokens.now) }
{
    let mut names = List::new(alloc);
    let mut rest = tokens;
    while let [token, mark, after @ ..] = rest {
        match read_pair(token, mark) {
            Pair::Malformed => return Ok(None),
            Pair::Variadic => {
                return Ok(Some(Parameters {
                    names,
                    variadic: true,
                    after,
                }));
            }
            Pair::Last => {
                names.add(token.text.copy(alloc)?)?;
                return Ok(Some(Parameters {
                    names,
                    variadic: false,
                    after,
                }));
            }
            Pair::Next => {
                names.add(token.text.copy(alloc)?)?;
                rest = after;
            }
        }
    }
    Ok(None)
}

/// The parameters that follow a `(`; `None` where they are malformed.
pub(crate) fn parameters_in<'a>(
    alloc: Global,
    tokens: &'a [PpTok],
) -> Result<Option<Parameters<'a>>, Memory>
    ensures { IfOk result (λ ps.
        option_map parameters_of ps ≡ definitions.parameters_in tokens.now) }
{
    match tokens {
        [token, after @ ..] if token.text.as_slice() == b")".as_slice() => Ok(Some(Parameters {
            names: List::new(alloc),
            variadic: false,
            after,
        })),
        _ => some_parameters(alloc, tokens),
    }
}
