//! The parameters of a function-like macro, to be looked up (ISO/IEC 9899:1999, 6.10.3).
ghost use Rattle.std.specs.Prelude.{◌≡◌, ◌∷◌, ◌||◌, ℕ, List, false, IfNone, IfOk, IfSome, IsTrue, codes, not};
ghost use Rattle.std.specs.HashSet.{contains_by};
ghost use Rattle.std.specs.List.{list_any};
ghost use Rattle.std.specs.Str.{bytes_eq};
ghost use Rattle.hv_base.specs.Ascii.{is_among};
ghost use Rattle.hv_model.specs.Name.{are_distinct};
ghost use Rattle.hv_plain.specs.episode.Episode.{has_text};
ghost use Rattle.hv_plainpp.specs.Definitions as definitions;

use hv_base::{Memory, Text};
use hv_toks::PpTok;
use std::alloc::Global;
use std::collections::HashSet;

/// The parameters of a function-like macro, to be looked up.
#[derive(Drop)]
pub(crate) struct ParameterSet<'a> {
    names: &'a [Text],
    set: HashSet<&'a [u8]>,
    variadic: bool,
    ghost members: { (name : List ℕ)
        → contains_by (λ key. bytes_eq name key.now) set ≡ is_among name names.now },
}

/// These names as a set; `None` where two are the same.
fn distinct<'a>(alloc: Global, names: &'a [Text]) -> Result<Option<HashSet<&'a [u8]>>, Memory>
    ensures none { IfOk result (λ set. IfNone set (are_distinct names.now ≡ false)) }
    ensures some { IfOk result (λ set. IfSome set (λ set. IsTrue (are_distinct names.now))) }
    ensures members { IfOk result (λ set. IfSome set (λ set. (name : List ℕ)
        → contains_by (λ key. bytes_eq name key.now) set ≡ is_among name names.now)) }
{
    let mut set = HashSet::new(alloc);
    for name in names {
        if !set.insert(name.as_slice())? {
            return Ok(None);
        }
    }
    Ok(Some(set))
}

/// Whether one of the names is `__VA_ARGS__`.
fn has_variable(names: &[Text]) -> bool
    ensures { result ≡ list_any (bytes_eq (codes "__VA_ARGS__")) names.now }
{
    names
        .iter()
        .any(|name| b"__VA_ARGS__".as_slice() == name.as_slice())
}

impl<'a> ParameterSet<'a> {
    ghost use Rattle.hv_directives.specs.working.ParameterSet.{names_of};

    /// These parameters, and `__VA_ARGS__` where the macro is variadic; `None` where two are the
    /// same, or one of them is called so itself.
    pub(crate) fn new(
        alloc: Global,
        names: &'a [Text],
        variadic: bool,
    ) -> Result<Option<ParameterSet<'a>>, Memory>
        ensures none { IfOk result (λ ps.
            IfNone ps (are_distinct (codes "__VA_ARGS__" ∷ names.now) ≡ false)) }
        ensures some { IfOk result (λ ps.
            IfSome ps (λ ps. IsTrue (are_distinct (codes "__VA_ARGS__" ∷ names.now)))) }
        ensures fields { IfOk result (λ ps.
            IfSome ps (λ ps. (ps.names.now ≡ names.now) × (ps.variadic ≡ variadic))) }
    {
        if has_variable(names) {
            return Ok(None);
        }
        match distinct(alloc, names)? {
            Some(set) => Ok(Some(ParameterSet {
                names,
                set,
                variadic,
            })),
            None => Ok(None),
        }
    }

    /// Whether this is a parameter's name.
    fn contains(&self, name: &[u8]) -> bool
        ensures { result ≡ is_among name.now (names_of self.now) }
    {
        self.set.contains(&name) || self.variadic && name == b"__VA_ARGS__".as_slice()
    }

    /// Whether the tokens begin with a parameter.
    fn begin(&self, tokens: &[PpTok]) -> bool
        ensures { result ≡ definitions.begins_with_parameter (names_of self.now) tokens.now }
    {
        match tokens {
            [] => false,
            [token, ..] => self.contains(token.text.as_slice()),
        }
    }

    /// Whether the token isn't `#`, or a parameter follows it.
    fn allow(&self, token: &PpTok, after: &[PpTok]) -> bool
        ensures { result ≡ (not (has_text token.now (codes "#"))
            || definitions.begins_with_parameter (names_of self.now) after.now) }
    {
        token.text.as_slice() != b"#".as_slice() || self.begin(after)
    }

    /// Whether a parameter follows each `#` (6.10.3.2, paragraph 1).
    pub(crate) fn are_quoted(&self, tokens: &[PpTok]) -> bool
        ensures { result ≡ definitions.quotes_parameters (names_of self.now) tokens.now }
    {
        let mut rest = tokens;
        while let [token, after @ ..] = rest {
            if !self.allow(token, after) {
                return false;
            }
            rest = after;
        }
        true
    }
}
