//! Which directive a line is.
ghost use Rattle.std.specs.Prelude.{◌≡◌};
ghost use Rattle.hv_plainpp.specs.Directives as directives;
ghost use Rattle.hv_directives.specs.Values as values;

use hv_toks::PpTok;

/// What the first line of a group asks, by the tokens after the directive's name (ISO/IEC
/// 9899:1999, 6.10.1).
#[derive(Clone, Copy, Debug)]
pub enum Question<'a> {
    /// `#if`: whether an expression is true.
    Expression(&'a [PpTok]),
    /// `#ifdef`: whether a name is a macro.
    IsMacro(&'a [PpTok]),
    /// `#ifndef`: whether it is none.
    IsNoMacro(&'a [PpTok]),
}

/// A directive that makes groups (6.10.1).
#[derive(Clone, Copy, Debug)]
pub enum Conditional<'a> {
    If(Question<'a>),
    Elif(&'a [PpTok]),
    Else,
    Endif,
}

/// Another directive, by the tokens after its name (6.10.2 to 6.10.7).
#[derive(Clone, Copy, Debug)]
pub enum Action<'a> {
    Include(&'a [PpTok]),
    Define(&'a [PpTok]),
    Undef(&'a [PpTok]),
    Error,
    /// `#pragma`, and `#` with nothing after it.
    Ignored,
    /// None of them.
    Unknown,
}

/// A directive of a source file (6.10, paragraph 1).
#[derive(Clone, Copy, Debug)]
pub enum Directive<'a> {
    Conditional(Conditional<'a>),
    Action(Action<'a>),
}

/// The directive of this name, with these tokens after it.
fn named<'a>(name: &[u8], tokens: &'a [PpTok]) -> Directive<'a>
    ensures { values.directive_of result ≡ directives.named name.now tokens.now }
{
    if name == b"if".as_slice() {
        Directive::Conditional(Conditional::If(Question::Expression(tokens)))
    } else if name == b"ifdef".as_slice() {
        Directive::Conditional(Conditional::If(Question::IsMacro(tokens)))
    } else if name == b"ifndef".as_slice() {
        Directive::Conditional(Conditional::If(Question::IsNoMacro(tokens)))
    } else if name == b"elif".as_slice() {
        Directive::Conditional(Conditional::Elif(tokens))
    } else if name == b"else".as_slice() {
        Directive::Conditional(Conditional::Else)
    } else if name == b"endif".as_slice() {
        Directive::Conditional(Conditional::Endif)
    } else if name == b"include".as_slice() {
        Directive::Action(Action::Include(tokens))
    } else if name == b"define".as_slice() {
        Directive::Action(Action::Define(tokens))
    } else if name == b"undef".as_slice() {
        Directive::Action(Action::Undef(tokens))
    } else if name == b"error".as_slice() {
        Directive::Action(Action::Error)
    } else if name == b"pragma".as_slice() {
        Directive::Action(Action::Ignored)
    } else {
        Directive::Action(Action::Unknown)
    }
}

/// The directive of a line, by the tokens after its `#`.
pub fn directive_on(line: &[PpTok]) -> Directive<'_>
    ensures meaning { values.directive_of result ≡ directives.directive_of line.now }
{
    match line {
        [] => Directive::Action(Action::Ignored),
        [name, tokens @ ..] => named(name.text.as_slice(), tokens),
    }
}
