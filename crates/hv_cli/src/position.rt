//! Where a refusal stands, as messages say it.
ghost use Rattle.std.specs.Prelude.{◌≡◌, ◌++◌, ◌≤◌, ◌∷◌, IfOk, OnOk, count_by, decimal, length};
ghost use Rattle.std.specs.Option.{option_copied, option_map};
ghost use Rattle.hv_base.specs.Ascii.{comma, is_newline};
ghost use Rattle.hv_base.specs.Bundles.{name_at};
ghost use Rattle.hv_cli.specs.Positions as positions;

use crate::joined::joined;
use hv_base::{Bundle, Held, Memory, Place, Text};
use hv_plain::builtin_header;
use hv_preproc::header_name;
use itoa::Buffer;
use std::alloc::Global;

/// Where a refusal stands, as a message says it.
#[derive(Debug, Drop)]
pub struct Position {
    /// The file's name; that of a built-in header between `<` and `>`.
    pub file: Text,
    /// The number of the line, counted from 1.
    pub line: u64,
    /// The offset of the byte in the file as it was read, counted from 0.
    pub offset: u64,
    /// The offsets of the `#include` directives that led to the file, outermost first, in decimal
    /// and joined by commas; `-` where there are none.
    pub via: Text,
}

/// Where a place of a bundle is.
pub(crate) fn position_of(alloc: Global, bundle: &Bundle, place: &Place) -> Result<Position, Memory>
    ensures { IfOk result (λ position. position ≡ positions.position_of bundle.now place.now) }
{
    let name = bundle.name_of(place.file);
    Ok(Position {
        file: shown_name(alloc, name, place.file)?,
        line: line_at(shown_bytes(bundle, name, place.file), place.offset),
        offset: place.offset,
        via: way_of(alloc, place.stack.as_slice())?,
    })
}

/// The first byte of a file that no `#include` directive led to.
pub(crate) fn start_of(alloc: Global, file: &str) -> Result<Position, Memory>
    ensures { IfOk result (λ position. position ≡ positions.start_of file.now) }
{
    Ok(Position {
        file: Text::from_slice(alloc, file.as_bytes())?,
        line: 1,
        offset: 0,
        via: Text::from_slice(alloc, b"-")?,
    })
}

/// A file of this name as messages name it, or else the built-in header with this number.
fn shown_name(alloc: Global, name: Option<&str>, number: u32) -> Result<Text, Memory>
    ensures { IfOk result (λ text. text
        ≡ positions.name_shown (option_map (λ name. name.now) name.entry) number) }
{
    match name {
        Some(name) => Text::from_slice(alloc, name.as_bytes()),
        None => shown_header(alloc, header_name(number)),
    }
}

/// A built-in header as messages name it: its name between `<` and `>`.
fn shown_header(alloc: Global, name: Option<&str>) -> Result<Text, Memory>
    ensures { IfOk result (λ text. text
        ≡ positions.header_shown (option_map (λ name. name.now) name.entry)) }
{
    match name {
        Some(name) => joined(alloc, &[b"<".as_slice(), name.as_bytes(), b">".as_slice()]),
        None => Ok(Text::new(alloc)),
    }
}

/// The bytes of the bundle's file of this name, or else of the built-in header with this number.
fn shown_bytes<'a>(bundle: &'a Bundle, name: Option<&str>, number: u32) -> &'a [u8]
    ensures { result.now
        ≡ positions.bytes_shown bundle.now (option_map (λ name. name.now) name.entry) number }
{
    match name {
        Some(name) => held_bytes(bundle.get(name)),
        None => header_bytes(header_name(number)),
    }
}

/// The bytes of what is held; none where nothing is.
fn held_bytes(held: Option<&Held>) -> &[u8]
    ensures { result.now ≡ positions.bytes_held (option_copied held.entry) }
{
    match held {
        Some(Held::Bytes(bytes)) => bytes.as_slice(),
        Some(Held::Absent) | None => &[],
    }
}

/// The text of the built-in header of this name; nothing where there is none.
fn header_bytes(name: Option<&str>) -> &'static [u8]
    ensures { result.now ≡ positions.header_bytes (option_map (λ name. name.now) name.entry) }
{
    match name {
        Some(name) => match builtin_header(name) {
            Some(text) => text,
            None => &[],
        },
        None => &[],
    }
}

/// How many newlines there are.
fn newlines(bytes: &[u8]) -> usize
    ensures count { result ≡ count_by is_newline bytes.now }
    ensures within { result ≤ length bytes.now }
{
    bytes.iter().filter(|byte| **byte == b'\n').count()
}

/// The line of an offset, counted from 1.
fn line_at(bytes: &[u8], offset: u64) -> u64
    ensures { result ≡ positions.line_at bytes.now offset }
{
    let before = match bytes.get(..offset as usize) {
        Some(before) => before,
        None => bytes,
    };
    1 + newlines(before) as u64
}

/// The way to a file: these offsets in decimal, joined by commas; `-` where there are none.
fn way_of(alloc: Global, stack: &[u64]) -> Result<Text, Memory>
    ensures { IfOk result (λ text. text ≡ positions.way_of stack.now) }
{
    match stack {
        [] => Text::from_slice(alloc, b"-"),
        [first, others @ ..] => {
            let mut text = Text::new(alloc);
            add_number(&mut text, *first)?;
            add_after_commas(&mut text, others)?;
            Ok(text)
        }
    }
}

/// Adds numbers in decimal, each after a comma.
fn add_after_commas(text: &mut Text, numbers: &[u64]) -> Result<(), Memory>
    ensures { OnOk result (text.new ≡ text.old ++ positions.after_commas numbers.now) }
{
    for number in numbers {
        text.add(b',')?;
        add_number(text, *number)?;
    }
    Ok(())
}

/// Adds a number in decimal.
fn add_number(text: &mut Text, number: u64) -> Result<(), Memory>
    ensures { OnOk result (text.new ≡ text.old ++ decimal number) }
{
    let mut digits = Buffer::new();
    text.extend_from_slice(digits.format(number).as_bytes())
}
