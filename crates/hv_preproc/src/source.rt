//! The files of a bundle and the built-in headers, each cut once.
ghost use Rattle.std.specs.Prelude.{◌≡◌, ◌<◌, ◌≤◌, [], ℕ, List, Some, IfOk, IsTrue, length, option_map, slice_get, unwrap_or};
ghost use Rattle.hv_base.specs.Bundles.{number_at};
ghost use Rattle.hv_plain.specs.gathering.Headers.{header_text};
ghost use Rattle.hv_plain.specs.gathering.Mentions as mentions;
ghost use Rattle.hv_plainpp.specs.Files.{built_in, file_in, header_names};
ghost use Rattle.hv_preproc.specs.working.Sources.{AreHeaders, AreSources, IsSourceFor, IsSourceOf, cutting_of};

use hv_base::{Bundle, FIRST_HEADER_FILE, Held, List, MOST_NAMES, Memory};
use hv_lexer::{LexRefusal, lex};
use hv_plain::builtin_header;
use hv_toks::PpTok;
use std::alloc::Global;

/// What a file was cut into.
#[derive(Drop)]
pub(crate) enum Cut {
    Tokens(List<PpTok>),
    /// The comment at this offset isn't closed.
    OpenComment(u64),
}

/// A file or built-in header.
#[derive(Drop)]
pub(crate) struct Source {
    pub(crate) number: u32,
    pub(crate) name: String,
    pub(crate) cut: Cut,
}

/// All files of a bundle that are there, and the built-in headers.
#[derive(Drop)]
pub(crate) struct Sources {
    /// By the files' numbers; `None` where a file is absent.
    pub(crate) files: Vec<Option<Source>>,
    /// By the rows of the table of headers.
    pub(crate) headers: Vec<Source>,
}

/// What the file of this number is cut into.
fn cut_bytes(alloc: Global, number: u32, bytes: &[u8]) -> Result<Cut, Memory>
    ensures { IfOk result (λ c. mentions.cut number bytes.now ≡ cutting_of c) }
{
    match lex(alloc, number, bytes) {
        Ok(tokens) => Ok(Cut::Tokens(tokens)),
        Err(LexRefusal::OpenComment { offset }) => Ok(Cut::OpenComment(offset)),
        Err(LexRefusal::Memory) => Err(Memory),
    }
}

/// Cuts a file.
fn cut_source(alloc: Global, number: u32, name: &str, bytes: &[u8]) -> Result<Source, Memory>
    ensures { IfOk result (λ source. IsSourceOf source
        (record { number = number; name = name.now; bytes = bytes.now })) }
{
    Ok(Source {
        number,
        name: String::from_str(alloc, name)?,
        cut: cut_bytes(alloc, number, bytes)?,
    })
}

/// The file of this number of a bundle; `None` where it is absent.
fn cut_file(alloc: Global, bundle: &Bundle, number: u32) -> Result<Option<Source>, Memory>
    requires { number < length bundle.now.entries }
    ensures { IfOk result (λ source. (name : List ℕ) → number_at bundle.now name ≡ Some number
        → IsSourceFor source (file_in bundle.now name)) }
{
    let Some(name) = bundle.name_of(number) else {
        return Ok(None);
    };
    match bundle.get(name) {
        Some(Held::Bytes(bytes)) => Ok(Some(cut_source(alloc, number, name, bytes.as_slice())?)),
        Some(Held::Absent) => Ok(None),
        None => Ok(None),
    }
}

/// The name of the built-in header in this row of the table of headers; `None` where there are
/// fewer.
// SAME: headers
pub(crate) fn header_in_row(row: u32) -> Option<&'static str>
    ensures { option_map (λ name. name.now) result ≡ slice_get header_names row }
{
    match row {
        0 => Some("stddef.h"),
        1 => Some("stdio.h"),
        2 => Some("stdlib.h"),
        3 => Some("string.h"),
        4 => Some("limits.h"),
        5 => Some("stdbool.h"),
        6 => Some("stdint.h"),
        _ => None,
    }
}

/// The text of a built-in header.
fn header_bytes(name: &str) -> &[u8]
    ensures { result.now ≡ unwrap_or (header_text name.now) [] }
{
    match builtin_header(name) {
        Some(text) => text,
        None => &[],
    }
}

/// Cuts the built-in header of this name, which stands in this row of the table of headers.
fn cut_header(alloc: Global, row: u32, name: &str) -> Result<Source, Memory>
    requires { Some name.now ≡ slice_get header_names row }
    ensures { IfOk result (λ source. IsSourceFor (Some source) (built_in name.now)) }
{
    cut_source(alloc, FIRST_HEADER_FILE + row, name, header_bytes(name))
}

/// Cuts the built-in headers.
fn cut_headers(alloc: Global) -> Result<Vec<Source>, Memory>
    ensures { IfOk result (λ sources. AreHeaders sources.items) }
{
    let mut headers = Vec::new(alloc);
    let mut row = 0;
    while let Some(name) = header_in_row(row) {
        headers.push(cut_header(alloc, row, name)?)?;
        row += 1;
    }
    Ok(headers)
}

/// Whether a bundle has no more names than the limit. So has each bundle, but no contract says it.
fn is_within_limit(bundle: &Bundle) -> bool
    ensures { IsTrue result → length bundle.now.entries ≤ MOST_NAMES }
{
    bundle.name_of(MOST_NAMES).is_none()
}

impl Sources {
    /// Cuts the files of a bundle and the built-in headers.
    pub(crate) fn new(alloc: Global, bundle: &Bundle) -> Result<Sources, Memory>
        ensures { IfOk result (λ sources. AreSources bundle.now sources) }
    {
        if !is_within_limit(bundle) {
            return Err(Memory);
        }
        let mut files = Vec::new(alloc);
        for number in 0..bundle.len() {
            files.push(cut_file(alloc, bundle, number as u32)?)?;
        }
        Ok(Sources {
            files,
            headers: cut_headers(alloc)?,
        })
    }
}
