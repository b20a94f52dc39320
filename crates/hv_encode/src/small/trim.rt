//! Blanks at the ends of a line.
ghost use Rattle.std.specs.Prelude.{◌≡◌, reverse};
ghost use Rattle.hv_model.specs.Bytes.{without_leading_blanks};
ghost use Rattle.hv_plain.specs.Bytes as texts;

use hv_base::is_blank;
use hv_model::skip_blanks;

/// The text without the blanks at its end.
fn without_trailing_blanks(text: &[u8]) -> &[u8]
    ensures { result.now ≡ reverse (without_leading_blanks (reverse text.now)) }
{
    let mut rest = text;
    while let [more @ .., last] = rest {
        if !is_blank(*last) {
            return rest;
        }
        rest = more;
    }
    rest
}

/// The text without the blanks at both ends.
pub fn trimmed(text: &[u8]) -> &[u8]
    ensures { result.now ≡ texts.trimmed text.now }
{
    without_trailing_blanks(skip_blanks(text))
}
