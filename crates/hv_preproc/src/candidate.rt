//! The names under which a header is looked for.
ghost use Rattle.std.specs.Prelude.{◌≡◌, ◌++◌, IfOk, OnOk, map};
ghost use Rattle.std.specs.Option.{option_map};
ghost use Rattle.std.specs.String.{string_bytes};
ghost use Rattle.hv_directives.specs.Values.{header_of};
ghost use Rattle.hv_plain.specs.gathering.SearchOrder as order;

use hv_base::Memory;
use hv_directives::Header;
use std::alloc::Global;

/// The names under which a header is looked for, in order, when the file of this name includes it
/// (ISO/IEC 9899:1999, 6.10.2); after them come the built-in headers.
pub(crate) fn candidates(
    alloc: Global,
    dirs: &[String],
    file: &str,
    header: Header<'_>,
) -> Result<Vec<String>, Memory>
    ensures { IfOk result (λ names. map string_bytes names.items
        ≡ order.candidates (map string_bytes dirs.now) file.now (header_of header.entry)) }
{
    let name = header.name;
    let mut names = Vec::new(alloc);
    if name.as_bytes().starts_with(b"/") {
        names.push(String::from_str(alloc, name)?)?;
        return Ok(names);
    }
    if header.quoted {
        names.push(beside(alloc, file, name)?)?;
    }
    add_joined(alloc, &mut names, dirs, name)?;
    Ok(names)
}

/// Adds the name within each of these folders.
fn add_joined(
    alloc: Global,
    names: &mut Vec<String>,
    dirs: &[String],
    name: &str,
) -> Result<(), Memory>
    ensures { OnOk result (map string_bytes names.new.items ≡ map string_bytes names.old.items
        ++ map (λ dir. order.joined dir name.now) (map string_bytes dirs.now)) }
{
    for dir in dirs {
        names.push(joined(alloc, dir.as_str(), name)?)?;
    }
    Ok(())
}

/// The name within the folder of a file.
fn beside(alloc: Global, file: &str, name: &str) -> Result<String, Memory>
    ensures { IfOk result (λ text. string_bytes text ≡ order.beside file.now name.now) }
{
    match folder_of(file) {
        Some(folder) => joined(alloc, folder, name),
        None => Ok(String::from_str(alloc, name)?),
    }
}

/// What stands before the last `/` of a name; `None` where there is no `/`.
fn folder_of(file: &str) -> Option<&str>
    ensures { option_map (λ folder. folder.now) result ≡ order.folder_of file.now }
{
    let mut end = file.len();
    while end > 0 {
        end -= 1;
        if file.as_bytes()[end] == b'/' {
            return Some(&file[..end]);
        }
    }
    None
}

/// A name within a folder.
fn joined(alloc: Global, folder: &str, name: &str) -> Result<String, Memory>
    ensures { IfOk result (λ text. string_bytes text ≡ order.joined folder.now name.now) }
{
    let mut text = String::from_str(alloc, folder)?;
    text.push('/')?;
    text.push_str(name)?;
    Ok(text)
}
