//! Reading a file past its splices.

ghost use Rattle.std.specs.Prelude.{◌≡◌, ◌≤◌, ◌<◌, length};
ghost use Rattle.hv_toks.specs.Splices.{splice_len};

use hv_base::{List, Memory, Text};
use std::alloc::Global;

/// A place in a file. What is left from there on are the bytes that stay after the splicing of
/// lines.
#[derive(Clone, Copy)]
pub(crate) struct Cursor<'a> {
    bytes: &'a [u8],
    at: usize,
}

/// The first byte that is left.
#[derive(Clone, Copy)]
pub(crate) struct Next<'a> {
    pub(crate) byte: u8,
    /// Where it stands in the file as it was read.
    offset: u64,
    /// What is left after it.
    pub(crate) rest: Cursor<'a>,
    ghost advanced: { 0 < rest.at },
}

/// Bytes that were left, taken off.
#[derive(Drop)]
pub(crate) struct Taken<'a> {
    pub(crate) text: Text,
    /// Where the first of them stands in the file as it was read.
    pub(crate) start: u64,
    /// The offset after the last of them.
    pub(crate) end: u64,
    /// What is left after them.
    pub(crate) rest: Cursor<'a>,
}

/// How many bytes the text begins with that are deleted together.
fn splice_len(text: &[u8]) -> usize
    ensures value { result ≡ splice_len text.now }
    ensures within { result ≤ length text.now }
{
    match text {
        [b'\\', rest @ ..] => match rest {
            [b'\n', ..] => 2,
            [b'\r', b'\n', ..] => 3,
            _ => 0,
        },
        _ => 0,
    }
}

impl<'a> Next<'a> {
    ghost use Rattle.std.specs.Prelude.{◌∷◌, [], nat_eq};
    ghost use Rattle.std.specs.List.{starts_with};
    ghost use Rattle.hv_lexer.specs.working.Cursors.{text_from};

    /// Whether these two bytes come first.
    pub(crate) fn begins(self, first: u8, second: u8) -> bool
        ensures { result ≡ starts_with nat_eq (text_from self.entry) (first ∷ second ∷ []) }
    {
        self.byte == first && self.rest.begins_with(second)
    }
}

impl<'a> Cursor<'a> {
    ghost use Rattle.std.specs.Prelude.{◌+◌, ◌-◌, ◌^◌, [], ◌∷◌, nat_eq, take, drop, slice_index, IfOk, IfSome, MatchOption};
    ghost use Rattle.std.specs.List.{starts_with};
    ghost use Rattle.hv_lexer.specs.working.Cursors.{marks_of, text_of, places_of, text_from};
    ghost use Rattle.hv_toks.specs.Splices.{spliced, offsets};

    /// The beginning of a file.
    pub(crate) fn new(bytes: &'a [u8]) -> Cursor<'a>
        ensures text { text_of result ≡ spliced bytes.now }
        ensures places { places_of result ≡ offsets bytes.now }
    {
        Cursor { bytes, at: 0 }
    }

    /// The first byte that is left, or `None` where none is.
    pub(crate) fn next(self) -> Option<Next<'a>>
        ensures marks { MatchOption result (marks_of self.entry ≡ [])
            (λ next. marks_of self.entry ≡ record { byte = next.byte; offset = next.offset }
            ∷ marks_of next.rest) }
        ensures text { MatchOption result (text_of self.entry ≡ [])
            (λ next. text_of self.entry ≡ text_from next) }
        ensures from { IfSome result (λ next. self.entry.at ≤ next.offset) }
        ensures within { IfSome result (λ next. next.offset < length self.entry.bytes.now) }
        ensures byte { IfSome result (λ next. next.byte
            ≡ slice_index self.entry.bytes.now next.offset) }
        ensures rest { IfSome result (λ next. next.rest ≡ record
            { bytes = self.entry.bytes; at = next.offset + 1 }) }
    {
        let mut at = self.at;
        while at < self.bytes.len() {
            let deleted = splice_len(&self.bytes[at..]);
            if deleted == 0 {
                return Some(Next {
                    byte: self.bytes[at],
                    offset: at as u64,
                    rest: Cursor {
                        bytes: self.bytes,
                        at: at + 1,
                    },
                });
            }
            at += deleted;
        }
        None
    }

    /// Whether this byte comes first.
    fn begins_with(self, byte: u8) -> bool
        ensures { result ≡ starts_with nat_eq (text_of self.entry) (byte ∷ []) }
    {
        match self.next() {
            Some(next) => next.byte == byte,
            None => false,
        }
    }

    /// The offset of the first byte that is left, 0 where none is.
    pub(crate) fn offset(self) -> u64
        ensures { result ≡ slice_index (places_of self.entry) 0 }
    {
        match self.next() {
            Some(next) => next.offset,
            None => 0,
        }
    }

    /// What is left after the first `len` bytes.
    pub(crate) fn skip(self, len: usize) -> Cursor<'a>
        ensures text { text_of result ≡ drop len (text_of self.entry) }
        ensures places { places_of result ≡ drop len (places_of self.entry) }
        ensures last { 0 < len → len ≤ length (text_of self.entry) → result.at ≡ slice_index
            (places_of self.entry) (len - 1) + 1 }
        ensures from { len ≤ length (text_of self.entry) → self.entry.at + len ≤ result.at }
        ensures within { 0 < len → len ≤ length (text_of self.entry)
            → result.at ≤ length self.entry.bytes.now }
        ensures as_read { len ≤ length (text_of self.entry) → result.at ≡ self.entry.at + len
            → take len (text_of self.entry) ≡ take len (drop self.entry.at self.entry.bytes.now) }
    {
        let mut rest = self;
        for _ in 0..len {
            match rest.next() {
                Some(next) => rest = next.rest,
                None => return rest,
            }
        }
        rest
    }

    /// Copies the first `len` bytes.
    fn copy(self, alloc: Global, len: usize) -> Result<Text, Memory>
        ensures { IfOk result (λ text. text ≡ take len (text_of self.entry)) }
    {
        let mut text = Vec::with_capacity(alloc, len)?;
        let mut rest = self;
        for _ in 0..len {
            match rest.next() {
                Some(next) => {
                    text.push(next.byte)?;
                    rest = next.rest;
                }
                None => break,
            }
        }
        Ok(List::from_vec(text))
    }

    /// Takes the first `len` bytes off.
    pub(crate) fn take(self, alloc: Global, len: usize) -> Result<Taken<'a>, Memory>
        requires some { 0 < len }
        requires within { len ≤ length (text_of self) }
        ensures text { IfOk result (λ taken. taken.text ≡ take len (text_of self.entry)) }
        ensures start { IfOk result (λ taken. taken.start ≡ slice_index (places_of self.entry) 0) }
        ensures end { IfOk result (λ taken. taken.end ≡ slice_index (places_of self.entry)
            (len - 1) + 1) }
        ensures rest_text { IfOk result (λ taken. text_of taken.rest ≡ drop len
            (text_of self.entry)) }
        ensures rest_places { IfOk result (λ taken. places_of taken.rest ≡ drop len
            (places_of self.entry)) }
    {
        let rest = self.skip(len);
        // As many bytes as were read there: no splice is among them.
        let text = if rest.at - self.at == len {
            Text::from_slice(alloc, &self.bytes[self.at..rest.at])?
        } else {
            self.copy(alloc, len)?
        };
        Ok(Taken {
            text,
            start: self.offset(),
            end: rest.at as u64,
            rest,
        })
    }
}
