//! Whether a text is a floating constant (ISO/IEC 9899:1999, 6.4.4.2).
ghost use Rattle.std.specs.Prelude.{◌≡◌, ◌≤◌, length};
ghost use Rattle.std.specs.List.{prefix_len};
ghost use Rattle.hv_ctoks.specs.Floating as floating;
ghost use Rattle.hv_ctoks.specs.working.Scanning as scanning;

use hv_base::is_digit;

/// Of which digits a floating constant is made.
#[derive(Clone, Copy, Debug, PartialEq, Eq)]
pub(crate) enum Base {
    Decimal,
    Hexadecimal,
}

/// Whether the byte is a digit of the base.
fn is_digit_of(base: Base, byte: u8) -> bool
    ensures { result ≡ floating.is_digit_of base byte }
{
    match base {
        Base::Decimal => is_digit(byte),
        Base::Hexadecimal => matches!(byte, b'0'..=b'9' | b'a'..=b'f' | b'A'..=b'F'),
    }
}

/// How many digits of the base the text begins with.
fn digits_len(base: Base, text: &[u8]) -> usize
    ensures value { result ≡ prefix_len (floating.is_digit_of base) text.now }
    ensures within { result ≤ length text.now }
{
    text.iter()
        .take_while(|byte| is_digit_of(base, **byte))
        .count()
}

/// Whether an exponent part begins with the byte.
fn is_exponent_letter(base: Base, byte: u8) -> bool
    ensures { result ≡ floating.is_exponent_letter base byte }
{
    match base {
        Base::Decimal => matches!(byte, b'e' | b'E'),
        Base::Hexadecimal => matches!(byte, b'p' | b'P'),
    }
}

/// Whether the text is a floating suffix or nothing.
fn is_suffix_or_none(text: &[u8]) -> bool
    ensures { result ≡ floating.maybe (floating.one floating.is_suffix) text.now }
{
    matches!(text, [] | [b'f' | b'F' | b'l' | b'L'])
}

/// Whether the text is decimal digits, and perhaps a floating suffix.
fn is_power(text: &[u8]) -> bool
    ensures { result ≡ scanning.scan_power text.now }
{
    let len = digits_len(Base::Decimal, text);
    len > 0 && is_suffix_or_none(&text[len..])
}

/// Whether the text is what stands after the letter of an exponent part.
fn is_signed_power(text: &[u8]) -> bool
    ensures { result ≡ scanning.scan_signed_power text.now }
{
    match text {
        [] => false,
        [b'+' | b'-', rest @ ..] => is_power(rest),
        _ => is_power(text),
    }
}

/// Whether the text is an exponent part, and perhaps a floating suffix.
fn is_exponent(base: Base, text: &[u8]) -> bool
    ensures { result ≡ scanning.scan_exponent base text.now }
{
    match text {
        [] => false,
        [letter, rest @ ..] => is_exponent_letter(base, *letter) && is_signed_power(rest),
    }
}

/// Whether the text may stand after a fractional constant.
fn is_ending(base: Base, text: &[u8]) -> bool
    ensures { result ≡ scanning.scan_ending base text.now }
{
    match base {
        Base::Decimal => is_suffix_or_none(text) || is_exponent(base, text),
        Base::Hexadecimal => is_exponent(base, text),
    }
}

/// Whether the text may stand after a point, where `before` says whether digits stand before it.
fn is_fraction(base: Base, before: bool, text: &[u8]) -> bool
    ensures { result ≡ scanning.scan_fraction base before text.now }
{
    let len = digits_len(base, text);
    (before || len > 0) && is_ending(base, &text[len..])
}

/// Whether the text may stand after the first digits, where `before` says whether there are some.
fn is_rest(base: Base, before: bool, text: &[u8]) -> bool
    ensures { result ≡ scanning.scan_rest base before text.now }
{
    match text {
        [] => false,
        [b'.', after @ ..] => is_fraction(base, before, after),
        _ => before && is_exponent(base, text),
    }
}

/// Whether the text is a floating constant of the base, in base 16 after its `0x`.
fn is_floating_of(base: Base, text: &[u8]) -> bool
    ensures { result ≡ scanning.scan_floating base text.now }
{
    let len = digits_len(base, text);
    is_rest(base, len > 0, &text[len..])
}

/// Whether the text is a hexadecimal floating constant without its `0`.
fn is_after_zero(text: &[u8]) -> bool
    ensures { result ≡ scanning.scan_x text.now }
{
    match text {
        [b'x' | b'X', rest @ ..] => is_floating_of(Base::Hexadecimal, rest),
        _ => false,
    }
}

/// Whether the text is a hexadecimal floating constant.
fn is_hexadecimal(text: &[u8]) -> bool
    ensures { result ≡ scanning.scan_hexadecimal text.now }
{
    match text {
        [b'0', rest @ ..] => is_after_zero(rest),
        _ => false,
    }
}

/// Whether the text is a floating constant (6.4.4.2).
pub(crate) fn is_floating(text: &[u8]) -> bool
    ensures { result ≡ floating.is_floating text.now }
{
    is_floating_of(Base::Decimal, text) || is_hexadecimal(text)
}
