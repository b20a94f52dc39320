//! Texts of tokens, in which answers to `defined` may be open.
ghost use Rattle.std.specs.Prelude.{◌≡◌, ◌∷◌, ◌++◌, [], ℕ, List, map, IfOk, OnOk};
ghost use Rattle.hv_toks.specs.Macro.{Macro};
ghost use Rattle.hv_rescan.specs.Pending.{is_macro};
ghost use Rattle.hv_rescan.specs.Values.{asked_in, text_of};
ghost use Rattle.hv_rescan.specs.declared.spelling.Spelling.TheVariants.{Open as Open'};

use crate::draft::Draft;
use hv_base::{Memory, Stack, Text};
use std::alloc::Global;
use std::rc::Rc;

/// Bytes, and after them the answer whether a name is defined: `1` or `0`.
#[derive(Debug, Drop)]
pub struct Digit {
    pub(crate) before: Text,
    pub(crate) name: Text,
}

/// The spelling of a token.
#[derive(Debug, Drop)]
pub enum Spelling {
    /// The same bytes whatever names are defined.
    Known(Rc<Text>),
    /// Bytes with open digits, at least one, and the bytes after the last one.
    Open {
        first: Digit,
        more: Stack<Digit>,
        tail: Text,
    },
}

impl Spelling {
    /// The same spelling.
    pub(crate) fn copy(&self, alloc: Global) -> Result<Spelling, Memory>
        ensures { IfOk result (λ copy. (macros : List ℕ → Macro)
            → text_of macros copy ≡ text_of macros self.now) }
    {
        match self {
            Spelling::Known(text) => Ok(Spelling::Known(text.clone()?)),
            Spelling::Open { .. } => {
                let mut draft = Draft::new(alloc);
                draft.add_spelling(alloc, self, false)?;
                draft.finish(alloc)
            }
        }
    }
}

/// A spelling whose first open digit is answered.
pub(crate) fn answered(
    alloc: Global,
    first: Digit,
    mut more: Stack<Digit>,
    tail: Text,
    is_defined: bool,
) -> Result<Spelling, Memory>
    ensures text { IfOk result (λ spelling. (macros : List ℕ → Macro)
        → is_macro (macros first.name) ≡ is_defined
        → text_of macros spelling ≡ text_of macros (Open' first more tail)) }
    ensures names { IfOk result (λ spelling. asked_in spelling ≡ map (λ digit. digit.name) more) }
{
    let Digit {
        before: mut text,
        ..
    } = first;
    text.add(if is_defined { b'1' } else { b'0' })?;
    match more.pop() {
        None => {
            text.extend_from_slice(tail.as_slice())?;
            Ok(Spelling::Known(Rc::new(alloc, text)?))
        }
        Some(next) => {
            text.extend_from_slice(next.before.as_slice())?;
            Ok(Spelling::Open {
                first: Digit {
                    before: text,
                    name: next.name,
                },
                more,
                tail,
            })
        }
    }
}
