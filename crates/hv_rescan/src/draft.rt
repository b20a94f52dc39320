//! Texts that are made, with open digits.
ghost use Rattle.std.specs.Prelude.{◌≡◌, ◌∷◌, ◌++◌, [], ℕ, List, reverse, IfOk, OnOk};
ghost use Rattle.hv_plain.specs.episode.Episode.{digit};
ghost use Rattle.hv_plain.specs.episode.Substitution.{escaped};
ghost use Rattle.hv_toks.specs.Cutting.{whole_token};
ghost use Rattle.hv_toks.specs.Macro.{Macro};
ghost use Rattle.hv_rescan.specs.Values.{digits_of, text_of};
ghost use Rattle.hv_rescan.specs.working.Drafts.{digits_within, draft_of, nothing, within};

use crate::spelling::{Digit, Spelling};
use hv_base::{List, Memory, Stack, Text};
use hv_lexer::whole_token;
use hv_toks::PpKind;
use std::alloc::Global;
use std::mem;
use std::rc::Rc;

/// A text that is made: the digits so far, each with the bytes before it, and the bytes after them.
#[derive(Drop)]
pub(crate) struct Draft {
    pub(crate) digits: List<Digit>,
    pub(crate) tail: Text,
}

/// Adds a byte of a literal, after a `\` where it is `"` or `\`.
fn add_escaped(text: &mut Text, byte: u8) -> Result<(), Memory>
    ensures { OnOk result (text.new ≡ text.old ++ escaped (byte ∷ [])) }
{
    if byte == b'"' || byte == b'\\' {
        text.add(b'\\')?;
        text.add(byte)?;
        return Ok(());
    }
    text.add(byte)?;
    Ok(())
}

/// Adds bytes; where they are quoted, with a `\` before each `"` and `\`.
fn add_quoted(text: &mut Text, bytes: &[u8], is_quoted: bool) -> Result<(), Memory>
    ensures { OnOk result (text.new ≡ text.old ++ within is_quoted bytes.now) }
{
    if !is_quoted {
        text.extend_from_slice(bytes)?;
        return Ok(());
    }
    for byte in bytes {
        add_escaped(text, *byte)?;
    }
    Ok(())
}

impl Draft {
    /// The empty text.
    pub(crate) fn new(alloc: Global) -> Draft
        ensures { (macros : List ℕ → Macro) → draft_of macros result ≡ [] }
    {
        Draft {
            digits: List::new(alloc),
            tail: List::new(alloc),
        }
    }

    /// Adds bytes, which may be quoted.
    pub(crate) fn add(&mut self, bytes: &[u8], is_quoted: bool) -> Result<(), Memory>
        ensures { OnOk result ((macros : List ℕ → Macro) → draft_of macros self.new
            ≡ draft_of macros self.old ++ within is_quoted bytes.now) }
    {
        add_quoted(&mut self.tail, bytes, is_quoted)?;
        Ok(())
    }

    /// Adds the answer whether a name is defined.
    fn add_digit(&mut self, alloc: Global, name: &[u8]) -> Result<(), Memory>
        ensures { OnOk result ((macros : List ℕ → Macro) → draft_of macros self.new
            ≡ draft_of macros self.old ++ digit (macros name.now) ∷ []) }
    {
        let name = Text::from_slice(alloc, name)?;
        let before = mem::replace(&mut self.tail, List::new(alloc));
        self.digits.add(Digit { before, name })?;
        Ok(())
    }

    /// Adds digits with the bytes before them, which may be quoted. The last one comes first.
    fn add_digits(&mut self, alloc: Global, digits: &[Digit], is_quoted: bool) -> Result<(), Memory>
        ensures { OnOk result ((macros : List ℕ → Macro) → draft_of macros self.new
            ≡ draft_of macros self.old ++ digits_within is_quoted macros (reverse digits.now)) }
    {
        let mut left = digits.len();
        while left > 0 {
            left -= 1;
            let next = &digits[left];
            self.add(next.before.as_slice(), is_quoted)?;
            self.add_digit(alloc, next.name.as_slice())?;
        }
        Ok(())
    }

    /// Adds a spelling, which may be quoted.
    pub(crate) fn add_spelling(
        &mut self,
        alloc: Global,
        spelling: &Spelling,
        is_quoted: bool,
    ) -> Result<(), Memory>
        ensures { OnOk result ((macros : List ℕ → Macro) → draft_of macros self.new
            ≡ draft_of macros self.old ++ within is_quoted (text_of macros spelling.now)) }
    {
        match spelling {
            Spelling::Known(text) => {
                self.add(text.as_slice(), is_quoted)?;
                Ok(())
            }
            Spelling::Open { first, more, tail } => {
                self.add(first.before.as_slice(), is_quoted)?;
                self.add_digit(alloc, first.name.as_slice())?;
                self.add_digits(alloc, more.as_slice(), is_quoted)?;
                self.add(tail.as_slice(), is_quoted)?;
                Ok(())
            }
        }
    }

    /// The bytes where no name is defined.
    fn bytes(&self, alloc: Global) -> Result<Text, Memory>
        ensures { IfOk result (λ text. text ≡ draft_of nothing self.now) }
    {
        let mut text = List::new(alloc);
        for digit in self.digits.as_slice() {
            text.extend_from_slice(digit.before.as_slice())?;
            text.add(b'0')?;
        }
        text.extend_from_slice(self.tail.as_slice())?;
        Ok(text)
    }

    /// The kind of the text if it is one token, which doesn't depend on digits.
    pub(crate) fn kind(&self, alloc: Global) -> Result<Option<PpKind>, Memory>
        ensures { IfOk result (λ kind. (macros : List ℕ → Macro)
            → whole_token (draft_of macros self.now) ≡ kind) }
    {
        let text = self.bytes(alloc)?;
        Ok(whole_token(text.as_slice()))
    }

    /// The text as a spelling.
    pub(crate) fn finish(self, alloc: Global) -> Result<Spelling, Memory>
        ensures { IfOk result (λ spelling. (macros : List ℕ → Macro)
            → text_of macros spelling ≡ draft_of macros self) }
    {
        let mut more = Stack::new(alloc);
        let mut digits = self.digits.into_vec();
        while let Some(digit) = digits.pop() {
            more.push(digit)?;
        }
        match more.pop() {
            None => Ok(Spelling::Known(Rc::new(alloc, self.tail)?)),
            Some(first) => Ok(Spelling::Open {
                first,
                more,
                tail: self.tail,
            }),
        }
    }
}
