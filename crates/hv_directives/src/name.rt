//! Names that a source may define and undefine.
ghost use Rattle.std.specs.Prelude.{◌≡◌};
ghost use Rattle.std.specs.Option.{option_map};
ghost use Rattle.hv_plainpp.specs.Definitions as definitions;

use hv_base::is_among;
use hv_toks::{PpKind, PpTok};

/// The names that no source defines or undefines: `defined`, `__VA_ARGS__` and those of the
/// predefined macros (ISO/IEC 9899:1999, 6.10.3, paragraph 5; 6.10.8, paragraph 4).
const KEPT_NAMES: [&str; 5] = [
    "defined",
    "__VA_ARGS__",
    "__STDC__",
    "__STDC_HOSTED__",
    "__STDC_VERSION__",
];

/// Whether a token is a name that a source may define and undefine.
pub(crate) fn is_free_name(token: &PpTok) -> bool
    ensures { result ≡ definitions.is_free_name token.now }
{
    token.kind == PpKind::Identifier && !is_among(token.text.as_slice(), &KEPT_NAMES)
}

/// The name that an `#undef` line removes, by the tokens after `undef` (6.10.3.5). What follows the
/// name is ignored. `None` where no name stands there, or one that no source undefines.
pub fn undefined_name(line: &[PpTok]) -> Option<&[u8]>
    ensures meaning { option_map (λ name. name.now) result ≡ definitions.undefined_name line.now }
{
    match line {
        [name, ..] if is_free_name(name) => Some(name.text.as_slice()),
        _ => None,
    }
}
