//! The built-in headers by their file numbers.
ghost use Rattle.std.specs.Prelude.{◌≡◌};
ghost use Rattle.std.specs.Option.{option_map};
ghost use Rattle.hv_preproc.specs.Headers.{header_name_of};

use crate::source::header_in_row;
use hv_base::FIRST_HEADER_FILE;

/// The name of the built-in header with this file number; `None` where it is no built-in header's.
pub fn header_name(number: u32) -> Option<&'static str>
    ensures { option_map (λ name. name.now) result ≡ header_name_of number }
{
    if number < FIRST_HEADER_FILE {
        return None;
    }
    header_in_row(number - FIRST_HEADER_FILE)
}
