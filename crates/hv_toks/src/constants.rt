//! Reading integer constants: what their spellings mean (ISO/IEC 9899:1999, 6.4.4.1).
ghost use Rattle.std.specs.Prelude.{◌≡◌, ℕ, ◌<◌, ◌≤◌, ◌^◌, ◌∷◌, [], Some, length, nat_lt};
ghost use Rattle.std.specs.List.{list_any};
ghost use Rattle.std.specs.Str.{bytes_eq};
ghost use Rattle.hv_base.specs.declared.token.IntType.{IntType};
ghost use Rattle.hv_toks.specs.Constants as constants;

use hv_base::IntType;

/// How many `l` a suffix has.
#[derive(Clone, Copy, Debug, PartialEq, Eq)]
pub enum Rank {
    /// None.
    Int,
    /// One.
    Long,
    /// Two.
    LongLong,
}

/// What the suffix of an integer constant says.
#[derive(Clone, Copy, Debug, PartialEq, Eq)]
pub(crate) struct Suffix {
    is_unsigned: bool,
    rank: Rank,
}

/// What the digits of an integer constant say.
#[derive(Clone, Copy, Debug, PartialEq, Eq)]
pub(crate) struct Numeral {
    is_decimal: bool,
    value: u64,
}

/// What the spelling of an integer constant says.
#[derive(Clone, Copy, Debug, PartialEq, Eq)]
pub struct Integer {
    /// Whether its digits are decimal, not octal or hexadecimal.
    pub is_decimal: bool,
    pub value: u64,
    /// Whether its suffix has `u`.
    pub is_unsigned: bool,
    pub rank: Rank,
}

/// The value of a digit; 16 where the byte is none.
pub(crate) fn digit(byte: u8) -> u64
    ensures value { result ≡ constants.digit byte }
    ensures small { result ≤ 16 }
{
    match byte {
        b'0'..=b'9' => u64::from(byte - b'0'),
        b'a'..=b'f' => u64::from(byte - b'a') + 10,
        b'A'..=b'F' => u64::from(byte - b'A') + 10,
        _ => 16,
    }
}

/// Whether the byte is an octal digit.
pub fn is_octal(byte: u8) -> bool
    ensures { result ≡ constants.is_octal byte }
{
    digit(byte) < 8
}

/// Whether the byte is a hexadecimal digit.
pub fn is_hexadecimal(byte: u8) -> bool
    ensures { result ≡ constants.is_hexadecimal byte }
{
    digit(byte) < 16
}

/// The number with one more digit, if it is one of the base and the number fits.
fn with_digit(base: u64, number: u64, byte: u8) -> Option<u64>
    requires { base ≤ 16 }
    ensures { result ≡ constants.continued base number (byte ∷ []) }
{
    let digit = digit(byte);
    if digit >= base {
        return None;
    }
    number.checked_mul(base)?.checked_add(digit)
}

/// The number of one or more digits, if it needs no more than 64 bits.
pub(crate) fn number(base: u64, digits: &[u8]) -> Option<u64>
    requires { base ≤ 16 }
    ensures { result ≡ constants.number base digits.now }
{
    if digits.is_empty() {
        return None;
    }
    let mut number = 0;
    for byte in digits {
        number = with_digit(base, number, *byte)?;
    }
    Some(number)
}

/// The number that continues a zero with these bytes.
fn after_zero(text: &[u8]) -> Option<u64>
    ensures { result ≡ constants.after_zero text.now }
{
    match text {
        [] => Some(0),
        [b'x' | b'X', digits @ ..] => number(16, digits),
        _ => number(8, text),
    }
}

/// What the digits of an integer constant say.
fn read_numeral(text: &[u8]) -> Option<Numeral>
    ensures { result ≡ constants.numeral text.now }
{
    match text {
        [] => None,
        [b'0', rest @ ..] => Some(Numeral {
            is_decimal: false,
            value: after_zero(rest)?,
        }),
        _ => Some(Numeral {
            is_decimal: true,
            value: number(10, text)?,
        }),
    }
}

/// Whether the text is one of the words.
fn is_among(text: &[u8], words: &[&str]) -> bool
    ensures { result ≡ list_any (λ word. bytes_eq text.now word.now) words.now }
{
    words.iter().any(|word| text == word.as_bytes())
}

/// The rank of a suffix that has no `u`, or `None` where it is none.
fn signed_rank(text: &[u8]) -> Option<Rank>
    ensures { result ≡ constants.rank_among constants.signed_suffixes text.now }
{
    if is_among(text, &[""]) {
        Some(Rank::Int)
    } else if is_among(text, &["l", "L"]) {
        Some(Rank::Long)
    } else if is_among(text, &["ll", "LL"]) {
        Some(Rank::LongLong)
    } else {
        None
    }
}

/// The rank of a suffix that has a `u`, or `None` where it is none.
fn unsigned_rank(text: &[u8]) -> Option<Rank>
    ensures { result ≡ constants.rank_among constants.unsigned_suffixes text.now }
{
    if is_among(text, &["u", "U"]) {
        Some(Rank::Int)
    } else if is_among(text, &["ul", "uL", "Ul", "UL", "lu", "lU", "Lu", "LU"]) {
        Some(Rank::Long)
    } else if is_among(
        text,
        &["ull", "uLL", "Ull", "ULL", "llu", "llU", "LLu", "LLU"],
    ) {
        Some(Rank::LongLong)
    } else {
        None
    }
}

/// What a suffix says, or `None` where the text is none.
fn read_suffix(text: &[u8]) -> Option<Suffix>
    ensures { result ≡ constants.suffix text.now }
{
    if let Some(rank) = unsigned_rank(text) {
        return Some(Suffix {
            is_unsigned: true,
            rank,
        });
    }
    Some(Suffix {
        is_unsigned: false,
        rank: signed_rank(text)?,
    })
}

fn is_suffix_letter(byte: u8) -> bool
    ensures { result ≡ constants.is_suffix_letter byte }
{
    matches!(byte, b'u' | b'U' | b'l' | b'L')
}

/// How many bytes stand before the suffix.
fn unsuffixed_len(text: &[u8]) -> usize
    ensures value { result ≡ constants.unsuffixed_len text.now }
    ensures within { result ≤ length text.now }
{
    text.iter()
        .take_while(|byte| !is_suffix_letter(**byte))
        .count()
}

/// What the spelling of an integer constant says (6.4.4.1), or `None` where the text is none or
/// needs more than 64 bits.
pub fn read_integer(text: &[u8]) -> Option<Integer>
    ensures { result ≡ constants.integer text.now }
{
    let (digits, letters) = text.split_at(unsuffixed_len(text));
    let suffix = read_suffix(letters)?;
    let numeral = read_numeral(digits)?;
    Some(Integer {
        is_decimal: numeral.is_decimal,
        value: numeral.value,
        is_unsigned: suffix.is_unsigned,
        rank: suffix.rank,
    })
}

/// Whether a type can represent a value.
fn fits(kind: IntType, value: u64) -> bool
    ensures { result ≡ nat_lt value (constants.limit kind) }
{
    match kind {
        IntType::Int => value < 1 << 31,
        IntType::UInt => value < 1 << 32,
        IntType::Long | IntType::LongLong => value < 1 << 63,
        IntType::ULong | IntType::ULongLong => true,
    }
}

/// The types that a constant may have, in order (6.4.4.1, paragraph 5).
fn types(integer: Integer) -> &'static [IntType]
    ensures { result.now ≡ constants.types integer }
{
    use IntType::{Int, Long, LongLong, UInt, ULong, ULongLong};
    match (integer.is_unsigned, integer.rank) {
        (true, Rank::Int) => &[UInt, ULong, ULongLong],
        (true, Rank::Long) => &[ULong, ULongLong],
        (true, Rank::LongLong) => &[ULongLong],
        (false, Rank::Int) if integer.is_decimal => &[Int, Long, LongLong],
        (false, Rank::Long) if integer.is_decimal => &[Long, LongLong],
        (false, Rank::LongLong) if integer.is_decimal => &[LongLong],
        (false, Rank::Int) => &[Int, UInt, Long, ULong, LongLong, ULongLong],
        (false, Rank::Long) => &[Long, ULong, LongLong, ULongLong],
        (false, Rank::LongLong) => &[LongLong, ULongLong],
    }
}

/// The type of an integer constant, or `None` where none can represent its value.
fn type_of(integer: Integer) -> Option<IntType>
    ensures { result ≡ constants.type_of integer }
{
    types(integer)
        .iter()
        .copied()
        .find(|kind| fits(*kind, integer.value))
}

/// The value and the type of an integer constant (6.4.4.1), or `None` where the text is none or no
/// type can represent it. One that is printed with a type is read back.
pub fn read_int_constant(text: &[u8]) -> Option<(u64, IntType)>
    ensures value { result ≡ constants.int_constant text.now }
    ensures reads_back { (n : ℕ) (kind : IntType) → n < constants.limit kind
        → constants.int_constant (constants.printed_int n kind) ≡ Some (n, kind) }
{
    let integer = read_integer(text)?;
    Some((integer.value, type_of(integer)?))
}
