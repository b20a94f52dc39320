//! What constants come to.
ghost use Rattle.std.specs.Prelude.{◌≡◌};
ghost use Rattle.hv_plain.specs.controlling.Constants as constants;

use hv_plain::Operand;
use hv_toks::{Integer, read_char_constant, read_integer};

/// What an integer comes to, or `None` where no type can represent it.
fn operand_of(integer: Integer) -> Option<Operand>
    ensures { result ≡ constants.operand_of integer }
{
    let number = integer.value;
    let fits = number < 1 << 63;
    if integer.is_decimal && !integer.is_unsigned && !fits {
        return None;
    }
    Some(Operand {
        is_unsigned: integer.is_unsigned || !fits,
        bits: Some(number),
    })
}

/// What an integer constant comes to.
pub(crate) fn integer_constant(text: &[u8]) -> Option<Operand>
    ensures { result ≡ constants.integer_constant text.now }
{
    operand_of(read_integer(text)?)
}

/// The value of a byte as a `char`.
fn char_value(byte: u8) -> Operand
    ensures { result ≡ constants.char_value byte }
{
    let value = u64::from(byte);
    let bits = if byte < 128 {
        value
    } else {
        u64::MAX - 255 + value
    };
    Operand {
        is_unsigned: false,
        bits: Some(bits),
    }
}

/// What a character constant comes to.
pub(crate) fn char_constant(text: &[u8]) -> Option<Operand>
    ensures { result ≡ constants.char_constant text.now }
{
    Some(char_value(read_char_constant(text)?))
}
