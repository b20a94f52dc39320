//! Decimal numerals of bytes.
ghost use Rattle.std.specs.Prelude.{◌≡◌, ◌≢◌, ◌<◌, ℕ, IfNone, IfSome, decimal};
ghost use Rattle.hv_plain.specs.working.SmallReader.{byte_of as numeral};

/// The byte of one to three digits, as the reader of small programs has it.
pub(crate) fn read_digits(token: &[u8]) -> Option<u8>
    ensures { result ≡ numeral token.now }
{
    match token {
        [ones @ b'0'..=b'9'] => Some(ones - b'0'),
        [tens @ b'1'..=b'9', ones @ b'0'..=b'9'] => Some((tens - b'0') * 10 + (ones - b'0')),
        [
            hundreds @ b'1'..=b'9',
            tens @ b'0'..=b'9',
            ones @ b'0'..=b'9',
        ] => {
            let n = u16::from(hundreds - b'0') * 100
                + u16::from(tens - b'0') * 10
                + u16::from(ones - b'0');
            u8::try_from(n).ok()
        }
        _ => None,
    }
}

/// The byte that the text is the number of, in decimal digits without a leading zero.
pub fn byte_of(text: &[u8]) -> Option<u8>
    ensures some { IfSome result (λ n. (n < 256) × (text.now ≡ decimal n)) }
    ensures none { IfNone result ((n : ℕ) → n < 256 → text.now ≢ decimal n) }
{
    read_digits(text)
}
