//! The causes of refusals of a source.
ghost use Rattle.std.specs.Prelude.{◌≡◌};
ghost use Rattle.hv_base.specs.Why.{number_of, name_of};

/// Why a source is refused. Of several causes the one that is met first counts.
// SAME: refusals
#[derive(Clone, Copy, Debug, PartialEq, Eq)]
pub enum Why {
    /// A comment of an entered file isn't closed (6.4.9); the place is its `/`.
    OpenComment,
    /// A directive of an active group is none that is known (6.10), an `#ifdef` or `#ifndef` lacks
    /// its name, or an `#include` its header name.
    BadDirective,
    /// `#elif`, `#else` or `#endif` without an open group, `#elif` or `#else` after `#else`, or a
    /// file ends with an open group (6.10.1); the place is then the `#` that opened the innermost
    /// one.
    Unbalanced,
    /// A controlling expression that is evaluated is none, divides by zero or shifts too far
    /// (6.10.1).
    BadCondition,
    /// `#error` in an active group (6.10.5).
    ErrorDirective,
    /// No candidate of a header is there (6.10.2).
    NoFile,
    /// An include would be the 65th that is open (6.10.2, 5.2.4.1).
    IncludeTooDeep,
    /// `#define` or `#undef` without a name or with a name that is kept, a malformed or repeated
    /// parameter, `__VA_ARGS__` in the body of a macro without `...`, `#` in a function-like body
    /// not before a parameter, or `##` at an end of the body (6.10.3, 6.10.3.2, 6.10.3.3, 6.10.8).
    BadDefine,
    /// A wrong number of arguments, or the file, the controlling line or an argument that is
    /// expanded by itself ends before `)` (6.10.3).
    BadInvocation,
    /// A directive before the `)` of an invocation, or directly after a function-like macro's name
    /// that could be replaced (6.10.3).
    DirectiveInArguments,
    /// `##` doesn't give one preprocessing token (6.10.3.3).
    BadPaste,
    /// An expansion has more than 65,536 events.
    EpisodeTooLong,
    /// A number that is no integer constant and no floating constant, or is too large; a bad
    /// character constant or escape (6.4.4).
    BadConstant,
    /// What the profile leaves out: floating and wide constants, some keywords and names; in typing
    /// brace elision, a misplaced case label, block-scope `extern`, a variadic definition, a tag
    /// first mentioned in a parameter list, a cast between pointer and integer.
    LeftOut,
    /// A token that is no C token, or a place where the grammar ends (6.5 to 6.9).
    Syntax,
    /// A statement, a bracket, an operator or a conditional group would be one more than the limit.
    TooDeep,
    /// A name without a declaration in scope (6.2.1, 6.5.1).
    Undeclared,
    /// A second declaration that the standard forbids, or with an incompatible type (6.7).
    Redeclared,
    /// Any other constraint of 6.5 to 6.9; an incomplete type where a complete one is needed,
    /// `main` of another form, an object or a type larger than the limit on objects.
    BadType,
    /// A constant expression or a static initialiser isn't constant, or its value is out of its
    /// type's range (6.6, 6.7.8).
    NotConstant,
    /// Two equal case values or two defaults of one switch (6.8.4.2).
    DuplicateCase,
    /// An identifier begins with `hv_`, which Hercules keeps for itself.
    Reserved,
    /// `main` isn't defined (5.1.2.2.1); the place is the end of the main file.
    NoMain,
    /// A function that is named outside `sizeof`, or a named `extern` object, isn't defined (6.9).
    NotDefined,
}

impl Why {
    /// The number in the table of refusals, from 1 to 24.
    pub fn number(&self) -> u8
        ensures { result ≡ number_of self.now }
    {
        *self as u8 + 1
    }

    /// The name in the table of refusals.
    // SAME: refusals
    pub fn name(&self) -> &'static str
        ensures { result.now ≡ name_of self.now }
    {
        match self {
            Why::OpenComment => "OpenComment",
            Why::BadDirective => "BadDirective",
            Why::Unbalanced => "Unbalanced",
            Why::BadCondition => "BadCondition",
            Why::ErrorDirective => "ErrorDirective",
            Why::NoFile => "NoFile",
            Why::IncludeTooDeep => "IncludeTooDeep",
            Why::BadDefine => "BadDefine",
            Why::BadInvocation => "BadInvocation",
            Why::DirectiveInArguments => "DirectiveInArguments",
            Why::BadPaste => "BadPaste",
            Why::EpisodeTooLong => "EpisodeTooLong",
            Why::BadConstant => "BadConstant",
            Why::LeftOut => "LeftOut",
            Why::Syntax => "Syntax",
            Why::TooDeep => "TooDeep",
            Why::Undeclared => "Undeclared",
            Why::Redeclared => "Redeclared",
            Why::BadType => "BadType",
            Why::NotConstant => "NotConstant",
            Why::DuplicateCase => "DuplicateCase",
            Why::Reserved => "Reserved",
            Why::NoMain => "NoMain",
            Why::NotDefined => "NotDefined",
        }
    }
}
