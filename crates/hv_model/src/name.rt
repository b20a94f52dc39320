//! Names of options.
ghost use Rattle.std.specs.Prelude.{◌≡◌};
ghost use Rattle.std.specs.List.{list_all};
ghost use Rattle.hv_base.specs.Ascii as ascii;
ghost use Rattle.hv_model.specs.Name as names;

use crate::RESERVED;
use hv_base::{is_among, is_identifier_byte, is_nondigit};

/// Whether each byte may follow in an identifier.
fn are_identifier_bytes(text: &[u8]) -> bool
    ensures { result ≡ list_all ascii.is_identifier_byte text.now }
{
    text.iter().all(|byte| is_identifier_byte(*byte))
}

/// Whether the text is an identifier.
pub(crate) fn is_name(text: &[u8]) -> bool
    ensures { result ≡ names.is_name text.now }
{
    match text {
        [] => false,
        [first, rest @ ..] => is_nondigit(*first) && are_identifier_bytes(rest),
    }
}

/// Whether the text is one of the words that name no option.
fn is_reserved(text: &[u8]) -> bool
    ensures { result ≡ names.is_reserved text.now }
{
    is_among(text, &RESERVED)
}

/// Whether a model may give this name to an option.
pub(crate) fn is_option_name(text: &[u8]) -> bool
    ensures { result ≡ names.is_option_name text.now }
{
    is_name(text) && !text.starts_with(b"hv_") && !is_reserved(text)
}
