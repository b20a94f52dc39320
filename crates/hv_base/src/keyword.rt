//! The keywords of C, and how they are spelled.
ghost use Rattle.std.specs.Prelude.{◌≡◌, ◌≢◌, ◌∷◌, Some, List, ℕ, find, IfNone, IfSome};
ghost use Rattle.std.specs.Str.{bytes_eq};
ghost use Rattle.hv_base.specs.Keywords as keywords;
ghost use Rattle.hv_base.specs.declared.keyword.Keyword.{Keyword as KeywordOf};

/// A keyword of the profile (ISO/IEC 9899:1999, 6.4.1, without `goto`, `float`, `double`,
/// `volatile`, `_Complex` and `_Imaginary`).
#[derive(Clone, Copy, Debug, PartialEq, Eq)]
pub enum Keyword {
    Auto,
    Break,
    Case,
    Char,
    Const,
    Continue,
    Default,
    Do,
    Else,
    Enum,
    Extern,
    For,
    If,
    Inline,
    Int,
    Long,
    Register,
    Restrict,
    Return,
    Short,
    Signed,
    Sizeof,
    Static,
    Struct,
    Switch,
    Typedef,
    Union,
    Unsigned,
    Void,
    While,
    /// `_Bool`
    Bool,
}

impl Keyword {
    /// How the keyword is spelt.
    // SAME: keywords
    pub fn spelling(&self) -> &'static str
        ensures value { result.now ≡ keywords.spelling_of self.now }
        ensures read_back { keywords.keyword_of result.now ≡ Some self.now }
    {
        match self {
            Keyword::Auto => "auto",
            Keyword::Break => "break",
            Keyword::Case => "case",
            Keyword::Char => "char",
            Keyword::Const => "const",
            Keyword::Continue => "continue",
            Keyword::Default => "default",
            Keyword::Do => "do",
            Keyword::Else => "else",
            Keyword::Enum => "enum",
            Keyword::Extern => "extern",
            Keyword::For => "for",
            Keyword::If => "if",
            Keyword::Inline => "inline",
            Keyword::Int => "int",
            Keyword::Long => "long",
            Keyword::Register => "register",
            Keyword::Restrict => "restrict",
            Keyword::Return => "return",
            Keyword::Short => "short",
            Keyword::Signed => "signed",
            Keyword::Sizeof => "sizeof",
            Keyword::Static => "static",
            Keyword::Struct => "struct",
            Keyword::Switch => "switch",
            Keyword::Typedef => "typedef",
            Keyword::Union => "union",
            Keyword::Unsigned => "unsigned",
            Keyword::Void => "void",
            Keyword::While => "while",
            Keyword::Bool => "_Bool",
        }
    }

    /// The keyword with this spelling, or `None` where no keyword has it.
    pub fn from_spelling(text: &[u8]) -> Option<Keyword>
        ensures value { result ≡ keywords.keyword_of text.now }
        ensures some { IfSome result (λ word. text.now ≡ keywords.spelling_of word) }
        ensures none { IfNone result ((word : KeywordOf) → text.now ≢ keywords.spelling_of word) }
    {
        let first = *text.first()?;
        spelt(beginning_with(first), text)
    }
}

/// The keywords that begin with this byte.
// SAME: keywords
fn beginning_with(first: u8) -> &'static [Keyword]
    ensures { (rest : List ℕ)
        → find (λ word. bytes_eq (first ∷ rest) (keywords.spelling_of word)) result.now
        ≡ keywords.keyword_of (first ∷ rest) }
{
    match first {
        b'a' => &[Keyword::Auto],
        b'b' => &[Keyword::Break],
        b'c' => &[
            Keyword::Case,
            Keyword::Char,
            Keyword::Const,
            Keyword::Continue,
        ],
        b'd' => &[Keyword::Default, Keyword::Do],
        b'e' => &[Keyword::Else, Keyword::Enum, Keyword::Extern],
        b'f' => &[Keyword::For],
        b'i' => &[Keyword::If, Keyword::Inline, Keyword::Int],
        b'l' => &[Keyword::Long],
        b'r' => &[Keyword::Register, Keyword::Restrict, Keyword::Return],
        b's' => &[
            Keyword::Short,
            Keyword::Signed,
            Keyword::Sizeof,
            Keyword::Static,
            Keyword::Struct,
            Keyword::Switch,
        ],
        b't' => &[Keyword::Typedef],
        b'u' => &[Keyword::Union, Keyword::Unsigned],
        b'v' => &[Keyword::Void],
        b'w' => &[Keyword::While],
        b'_' => &[Keyword::Bool],
        _ => &[],
    }
}

/// The first of these keywords that has this spelling.
fn spelt(among: &[Keyword], text: &[u8]) -> Option<Keyword>
    ensures { result ≡ find (λ word. bytes_eq text.now (keywords.spelling_of word)) among.now }
{
    among
        .iter()
        .copied()
        .find(|word| text == word.spelling().as_bytes())
}
