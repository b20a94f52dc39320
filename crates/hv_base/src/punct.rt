//! The punctuators of C, and how they are spelled.
ghost use Rattle.std.specs.Prelude.{◌≡◌, ◌≢◌, ◌∷◌, Some, List, ℕ, find, IfNone, IfSome};
ghost use Rattle.std.specs.Str.{bytes_eq};
ghost use Rattle.hv_base.specs.Puncts as puncts;
ghost use Rattle.hv_base.specs.declared.punct.Punct.{Punct as PunctOf};

/// A punctuator (ISO/IEC 9899:1999, 6.4.6, without digraphs).
#[derive(Clone, Copy, Debug, PartialEq, Eq)]
pub enum Punct {
    /// `[`
    LeftBracket,
    /// `]`
    RightBracket,
    /// `(`
    LeftParenthesis,
    /// `)`
    RightParenthesis,
    /// `{`
    LeftBrace,
    /// `}`
    RightBrace,
    /// `.`
    Dot,
    /// `->`
    Arrow,
    /// `++`
    PlusPlus,
    /// `--`
    MinusMinus,
    /// `&`
    And,
    /// `*`
    Star,
    /// `+`
    Plus,
    /// `-`
    Minus,
    /// `~`
    Tilde,
    /// `!`
    Not,
    /// `/`
    Slash,
    /// `%`
    Percent,
    /// `<<`
    LeftShift,
    /// `>>`
    RightShift,
    /// `<`
    Less,
    /// `>`
    Greater,
    /// `<=`
    LessEqual,
    /// `>=`
    GreaterEqual,
    /// `==`
    EqualEqual,
    /// `!=`
    NotEqual,
    /// `^`
    Caret,
    /// `|`
    Or,
    /// `&&`
    AndAnd,
    /// `||`
    OrOr,
    /// `?`
    Question,
    /// `:`
    Colon,
    /// `;`
    Semicolon,
    /// `...`
    Ellipsis,
    /// `=`
    Equal,
    /// `*=`
    StarEqual,
    /// `/=`
    SlashEqual,
    /// `%=`
    PercentEqual,
    /// `+=`
    PlusEqual,
    /// `-=`
    MinusEqual,
    /// `<<=`
    LeftShiftEqual,
    /// `>>=`
    RightShiftEqual,
    /// `&=`
    AndEqual,
    /// `^=`
    CaretEqual,
    /// `|=`
    OrEqual,
    /// `,`
    Comma,
    /// `#`
    Hash,
    /// `##`
    HashHash,
}

impl Punct {
    /// How the punctuator is spelt.
    // SAME: puncts
    pub fn spelling(&self) -> &'static str
        ensures value { result.now ≡ puncts.spelling_of self.now }
        ensures read_back { puncts.punct_of result.now ≡ Some self.now }
    {
        match self {
            Punct::LeftBracket => "[",
            Punct::RightBracket => "]",
            Punct::LeftParenthesis => "(",
            Punct::RightParenthesis => ")",
            Punct::LeftBrace => "{",
            Punct::RightBrace => "}",
            Punct::Dot => ".",
            Punct::Arrow => "->",
            Punct::PlusPlus => "++",
            Punct::MinusMinus => "--",
            Punct::And => "&",
            Punct::Star => "*",
            Punct::Plus => "+",
            Punct::Minus => "-",
            Punct::Tilde => "~",
            Punct::Not => "!",
            Punct::Slash => "/",
            Punct::Percent => "%",
            Punct::LeftShift => "<<",
            Punct::RightShift => ">>",
            Punct::Less => "<",
            Punct::Greater => ">",
            Punct::LessEqual => "<=",
            Punct::GreaterEqual => ">=",
            Punct::EqualEqual => "==",
            Punct::NotEqual => "!=",
            Punct::Caret => "^",
            Punct::Or => "|",
            Punct::AndAnd => "&&",
            Punct::OrOr => "||",
            Punct::Question => "?",
            Punct::Colon => ":",
            Punct::Semicolon => ";",
            Punct::Ellipsis => "...",
            Punct::Equal => "=",
            Punct::StarEqual => "*=",
            Punct::SlashEqual => "/=",
            Punct::PercentEqual => "%=",
            Punct::PlusEqual => "+=",
            Punct::MinusEqual => "-=",
            Punct::LeftShiftEqual => "<<=",
            Punct::RightShiftEqual => ">>=",
            Punct::AndEqual => "&=",
            Punct::CaretEqual => "^=",
            Punct::OrEqual => "|=",
            Punct::Comma => ",",
            Punct::Hash => "#",
            Punct::HashHash => "##",
        }
    }

    /// The punctuator with this spelling, or `None` where no punctuator has it.
    pub fn from_spelling(text: &[u8]) -> Option<Punct>
        ensures value { result ≡ puncts.punct_of text.now }
        ensures some { IfSome result (λ sign. text.now ≡ puncts.spelling_of sign) }
        ensures none { IfNone result ((sign : PunctOf) → text.now ≢ puncts.spelling_of sign) }
    {
        let first = *text.first()?;
        spelt(beginning_with(first), text)
    }
}

/// The punctuators that begin with this byte.
// SAME: puncts
fn beginning_with(first: u8) -> &'static [Punct]
    ensures { (rest : List ℕ)
        → find (λ sign. bytes_eq (first ∷ rest) (puncts.spelling_of sign)) result.now
        ≡ puncts.punct_of (first ∷ rest) }
{
    match first {
        b'[' => &[Punct::LeftBracket],
        b']' => &[Punct::RightBracket],
        b'(' => &[Punct::LeftParenthesis],
        b')' => &[Punct::RightParenthesis],
        b'{' => &[Punct::LeftBrace],
        b'}' => &[Punct::RightBrace],
        b'.' => &[Punct::Dot, Punct::Ellipsis],
        b'-' => &[
            Punct::Arrow,
            Punct::MinusMinus,
            Punct::Minus,
            Punct::MinusEqual,
        ],
        b'+' => &[Punct::PlusPlus, Punct::Plus, Punct::PlusEqual],
        b'&' => &[Punct::And, Punct::AndAnd, Punct::AndEqual],
        b'*' => &[Punct::Star, Punct::StarEqual],
        b'~' => &[Punct::Tilde],
        b'!' => &[Punct::Not, Punct::NotEqual],
        b'/' => &[Punct::Slash, Punct::SlashEqual],
        b'%' => &[Punct::Percent, Punct::PercentEqual],
        b'<' => &[
            Punct::LeftShift,
            Punct::Less,
            Punct::LessEqual,
            Punct::LeftShiftEqual,
        ],
        b'>' => &[
            Punct::RightShift,
            Punct::Greater,
            Punct::GreaterEqual,
            Punct::RightShiftEqual,
        ],
        b'=' => &[Punct::EqualEqual, Punct::Equal],
        b'^' => &[Punct::Caret, Punct::CaretEqual],
        b'|' => &[Punct::Or, Punct::OrOr, Punct::OrEqual],
        b'?' => &[Punct::Question],
        b':' => &[Punct::Colon],
        b';' => &[Punct::Semicolon],
        b',' => &[Punct::Comma],
        b'#' => &[Punct::Hash, Punct::HashHash],
        _ => &[],
    }
}

/// The first of these punctuators that has this spelling.
fn spelt(among: &[Punct], text: &[u8]) -> Option<Punct>
    ensures { result ≡ find (λ sign. bytes_eq text.now (puncts.spelling_of sign)) among.now }
{
    among
        .iter()
        .copied()
        .find(|sign| text == sign.spelling().as_bytes())
}
