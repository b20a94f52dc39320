//! The text of include folders.
ghost use Rattle.std.specs.Prelude.{◌≡◌, ◌∷◌, ◌≤◌, ◌&&◌, nat_le, not, length, IfOk, map, option_map};
ghost use Rattle.std.specs.List.{list_all};
ghost use Rattle.std.specs.String.{string_bytes};
ghost use Rattle.hv_base.specs.Ascii.{is_empty};
ghost use Rattle.hv_base.specs.declared.limits.TheConstants.{MOST_FOLDERS};
ghost use Rattle.hv_words.specs.Folders.{folders, names_in};
ghost use Rattle.hv_words.specs.working.Cut.{names_left, bytes_left};

use hv_base::{MOST_FOLDERS, Memory};
use std::alloc::Global;

/// The first name, and what stands after its colon.
fn next_name(text: &str) -> (&str, Option<&str>)
    ensures cut { names_in text.now ≡ result.0.now ∷ names_left result.1 }
    ensures shorter { bytes_left result.1 ≤ length text.now }
{
    match text.split_once(':') {
        Some((name, more)) => (name, Some(more)),
        None => (text, None),
    }
}

/// The names that colons set apart in a text.
fn names(alloc: Global, text: &str) -> Result<Vec<String>, Memory>
    ensures { IfOk result (λ names. map string_bytes names.items ≡ names_in text.now) }
{
    let mut names = Vec::new(alloc);
    let mut rest = Some(text);
    while let Some(text) = rest {
        let (name, more) = next_name(text);
        names.push(String::from_str(alloc, name)?)?;
        rest = more;
    }
    Ok(names)
}

/// Whether a name has a byte.
fn has_bytes(name: &String) -> bool
    ensures { result ≡ not (is_empty (string_bytes name.now)) }
{
    match name.as_bytes() {
        [] => false,
        [..] => true,
    }
}

/// Whether each of these names has a byte.
fn all_have_bytes(names: &[String]) -> bool
    ensures { result ≡ list_all (λ name. not (is_empty (string_bytes name))) names.now }
{
    names.iter().all(|name| has_bytes(name))
}

/// Whether these names are folders: each has a byte, and there are no more than may be.
fn are_folders(names: &[String]) -> bool
    ensures { result ≡ (list_all (λ name. not (is_empty (string_bytes name))) names.now
        && nat_le (length names.now) MOST_FOLDERS) }
{
    all_have_bytes(names) && names.len() <= MOST_FOLDERS
}

/// The folders that a text names; `None` where one has no name, or there are too many.
pub(crate) fn split_folders(alloc: Global, text: &str) -> Result<Option<Vec<String>>, Memory>
    ensures { IfOk result (λ found. option_map (λ dirs. map string_bytes dirs.items) found
        ≡ folders text.now) }
{
    let names = names(alloc, text)?;
    if are_folders(names.as_slice()) {
        Ok(Some(names))
    } else {
        Ok(None)
    }
}
