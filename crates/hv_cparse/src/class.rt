//! What a token is to the control, and the tables of signs and words.
ghost use Rattle.std.specs.Prelude.{◌≡◌};
ghost use Rattle.hv_base.specs.Ascii as ascii;
ghost use Rattle.hv_grammar.specs.Grammar as grammar;
ghost use Rattle.hv_cparse.specs.Control as control;
ghost use Rattle.hv_cparse.specs.working.Steps as steps;

use crate::frame::{Frame, Owner};
use hv_base::{CTok, Keyword, Punct, is_among};

/// A terminal of the grammar without the value of a name, a constant or a string literal.
#[derive(Clone, Copy, Debug, PartialEq, Eq)]
pub enum Class {
    Keyword(Keyword),
    /// An identifier that is no typedef name.
    Name,
    /// A typedef name.
    Marked,
    Number,
    Text,
    Sign(Punct),
    /// A nested statement, or a block's items.
    Hole,
    /// A name that is no identifier of the profile.
    Foreign,
}

/// What goes on after a left operand; operators are alike where their levels are.
#[derive(Clone, Copy)]
pub(crate) enum Infix {
    Binary(u8),
    Assignment,
    Question,
    Comma,
    Bracket,
    Parenthesis,
}

/// A specifier that a token is or begins; of a word, whether a type specifier is among the
/// specifiers with it.
#[derive(Clone, Copy)]
pub(crate) enum Specifier {
    Word(bool),
    Compound,
    Enumeration,
}

/// The names that are no identifiers of the profile.
const FOREIGN: [&str; 16] = [
    "__STDC__",
    "__STDC_HOSTED__",
    "__STDC_VERSION__",
    "__func__",
    "asm",
    "__FILE__",
    "__LINE__",
    "__DATE__",
    "__TIME__",
    "_Pragma",
    "goto",
    "float",
    "double",
    "volatile",
    "_Complex",
    "_Imaginary",
];

fn is_foreign(name: &[u8]) -> bool
    ensures { result ≡ ascii.is_among name.now grammar.foreign_names }
{
    is_among(name, &FOREIGN)
}

/// What a C token is to the control, with the mark of a typedef name or without.
pub fn class_of(tok: &CTok, typedef: bool) -> Class
    ensures { result ≡ control.class_of (grammar.symbol_of tok.now typedef) }
{
    match tok {
        CTok::Keyword(keyword) => Class::Keyword(*keyword),
        CTok::Name(name) => {
            if is_foreign(name.as_slice()) {
                Class::Foreign
            } else if typedef {
                Class::Marked
            } else {
                Class::Name
            }
        }
        CTok::Int { .. } | CTok::Char(_) => Class::Number,
        CTok::Str(_) => Class::Text,
        CTok::Punct(punct) => Class::Sign(*punct),
    }
}

/// What a sign goes on with after a left operand (6.5.2, 6.5.5 to 6.5.17), but for `,`.
pub(crate) fn infix_of(sign: Punct) -> Option<Infix>
    ensures { result ≡ steps.infix_of sign }
{
    let infix = match sign {
        Punct::Star | Punct::Slash | Punct::Percent => Infix::Binary(12),
        Punct::Plus | Punct::Minus => Infix::Binary(11),
        Punct::LeftShift | Punct::RightShift => Infix::Binary(10),
        Punct::Less | Punct::Greater | Punct::LessEqual | Punct::GreaterEqual => Infix::Binary(9),
        Punct::EqualEqual | Punct::NotEqual => Infix::Binary(8),
        Punct::And => Infix::Binary(7),
        Punct::Caret => Infix::Binary(6),
        Punct::Or => Infix::Binary(5),
        Punct::AndAnd => Infix::Binary(4),
        Punct::OrOr => Infix::Binary(3),
        Punct::Equal
        | Punct::StarEqual
        | Punct::SlashEqual
        | Punct::PercentEqual
        | Punct::PlusEqual
        | Punct::MinusEqual
        | Punct::LeftShiftEqual
        | Punct::RightShiftEqual
        | Punct::AndEqual
        | Punct::CaretEqual
        | Punct::OrEqual => Infix::Assignment,
        Punct::Question => Infix::Question,
        Punct::LeftBracket => Infix::Bracket,
        Punct::LeftParenthesis => Infix::Parenthesis,
        _ => return None,
    };
    Some(infix)
}

impl Infix {
    /// The level that the left operand has at least.
    pub(crate) fn left(self) -> u8
        ensures { result ≡ steps.left self }
    {
        match self {
            Infix::Binary(level) => level,
            Infix::Assignment => 14,
            Infix::Question => 3,
            Infix::Comma => 0,
            Infix::Bracket | Infix::Parenthesis => 15,
        }
    }

    /// The level of what ends before it: `* (T) a` ends before `=`, though a cast is no
    /// unary-expression.
    pub(crate) fn reach(self) -> u8
        ensures { result ≡ steps.reach self }
    {
        match self {
            Infix::Assignment => 13,
            _ => self.left(),
        }
    }

    /// The level of what it makes.
    pub(crate) fn makes(self) -> u8
        ensures { result ≡ steps.makes self }
    {
        match self {
            Infix::Assignment => 1,
            Infix::Question => 2,
            _ => self.left(),
        }
    }

    /// The frame that it begins.
    pub(crate) fn begun(self) -> Frame
        ensures { result ≡ steps.begun self }
    {
        match self {
            Infix::Binary(level) => Frame::Binary(level),
            Infix::Assignment => Frame::Assign,
            Infix::Question => Frame::Then,
            Infix::Comma => Frame::Comma,
            Infix::Bracket => Frame::Subscript,
            Infix::Parenthesis => Frame::Callee,
        }
    }
}

/// The specifier that a token is or begins (6.7.1 to 6.7.4), after others with a type specifier
/// among them or not.
pub(crate) fn specifier_of(owner: Owner, typed: bool, class: Class) -> Option<Specifier>
    ensures { result ≡ steps.specifier_of owner typed class }
{
    match class {
        Class::Keyword(keyword) => keyword_specifier(owner, typed, keyword),
        Class::Marked if !typed => Some(Specifier::Word(true)),
        _ => None,
    }
}

fn keyword_specifier(owner: Owner, typed: bool, keyword: Keyword) -> Option<Specifier>
    ensures { result ≡ steps.keyword_specifier owner typed keyword }
{
    match keyword {
        Keyword::Struct | Keyword::Union => Some(Specifier::Compound),
        Keyword::Enum => Some(Specifier::Enumeration),
        Keyword::Typedef
        | Keyword::Extern
        | Keyword::Static
        | Keyword::Auto
        | Keyword::Register
        | Keyword::Inline => match owner {
            Owner::Parameter | Owner::Declaration => Some(Specifier::Word(typed)),
            _ => None,
        },
        Keyword::Const | Keyword::Restrict => Some(Specifier::Word(typed)),
        Keyword::Void
        | Keyword::Char
        | Keyword::Short
        | Keyword::Int
        | Keyword::Long
        | Keyword::Signed
        | Keyword::Unsigned
        | Keyword::Bool => Some(Specifier::Word(true)),
        _ => None,
    }
}
