//! Texts of configurations.
ghost use Rattle.std.specs.Prelude.{◌≡◌, ◌<◌, ◌≤◌, ◌+◌, ◌∷◌, ◌++◌, [], ℕ, Bool, List, false, replicate, length, map, cond, take, IfErr, IfOk, OnOk};
ghost use Rattle.std.specs.List.{join_with_byte, position_or_len, slice_split};
ghost use Rattle.hv_model.specs.Config.{ConfigReading, IsConfigFault, config as said, config_from, config_of, is_comma, names_on, pieces_of, text_of};
ghost use Rattle.hv_model.specs.working.Pieces.{pieces_in, rest_len};

use crate::faults::ConfigFault;
use crate::model::Model;
use hv_base::{Config, List, Memory, Text};
use std::alloc::Global;

/// How many bytes stand before the first comma, or in all.
fn piece_len(text: &[u8]) -> usize
    ensures value { result ≡ position_or_len is_comma text.now }
    ensures within { result ≤ length text.now }
{
    text.iter().take_while(|byte| **byte != b',').count()
}

/// The first piece, and what stands after its comma.
fn next_piece(text: &[u8]) -> (&[u8], Option<&[u8]>)
    ensures cut { slice_split is_comma text.now ≡ result.0.now ∷ pieces_in result.1 }
    ensures shorter { rest_len result.1 ≤ length text.now }
{
    let end = piece_len(text);
    if end < text.len() {
        (&text[..end], Some(&text[end + 1..]))
    } else {
        (text, None)
    }
}

/// Turns the option on that a piece names.
fn take_piece(
    model: &Model,
    on: &mut Vec<bool>,
    piece: &[u8],
    number: u64,
) -> Result<(), ConfigFault>
    requires { length on.old.items ≡ length model.now.names }
    ensures taken { OnOk result ((more : List (List ℕ))
        → config_from model.now.names on.old.items number (piece.now ∷ more)
        ≡ config_from model.now.names on.new.items (number + 1) more) }
    ensures refused { IfErr result (λ fault. (more : List (List ℕ))
        → IsConfigFault (config_from model.now.names on.old.items number (piece.now
        ∷ more)) fault) }
    ensures length { length on.new.items ≡ length on.old.items }
{
    let Some(option) = model.position(piece) else {
        return Err(ConfigFault::Unknown { piece: number });
    };
    if on[option] {
        return Err(ConfigFault::Repeated { piece: number });
    }
    on[option] = true;
    Ok(())
}

/// The configuration that a text says: names of options that are on, joined by commas.
pub fn read_config(alloc: Global, model: &Model, text: &str) -> Result<Config, ConfigFault>
    ensures accepted { IfOk result (λ found. config_of model.now.names text.now ≡ said found.on) }
    ensures values { IfOk result (λ found. length found.on ≡ length model.now.names) }
    ensures refused { IfErr result (IsConfigFault (config_of model.now.names text.now)) }
{
    let Ok(mut on) = all_off(alloc, model.options()) else {
        return Err(ConfigFault::Memory);
    };
    read_pieces(model, &mut on, text.as_bytes())?;
    Ok(Config {
        on: List::from_vec(on),
    })
}

/// So many options, all off.
fn all_off(alloc: Global, options: usize) -> Result<Vec<bool>, Memory>
    ensures { IfOk result (λ on. on.items ≡ replicate options false) }
{
    Ok(vec![in alloc; false; options]?)
}

/// Turns the options on that the text names.
fn read_pieces(model: &Model, on: &mut Vec<bool>, text: &[u8]) -> Result<(), ConfigFault>
    requires { length on.old.items ≡ length model.now.names }
    ensures taken { OnOk result (config_from model.now.names on.old.items 0 (pieces_of text.now)
        ≡ said on.new.items) }
    ensures refused { IfErr result
        (IsConfigFault (config_from model.now.names on.old.items 0 (pieces_of text.now))) }
    ensures length { OnOk result (length on.new.items ≡ length on.old.items) }
{
    let mut rest = if text.is_empty() { None } else { Some(text) };
    let mut number = 0u64;
    while let Some(pieces) = rest {
        let (piece, more) = next_piece(pieces);
        take_piece(model, on, piece, number)?;
        number += 1;
        rest = more;
    }
    Ok(())
}

/// The names of the options that are on, in the model's order, joined by commas.
pub fn print_config(alloc: Global, model: &Model, config: &Config) -> Result<Text, Memory>
    requires { length config.now.on ≡ length model.now.names }
    ensures text { IfOk result (λ text. text ≡ text_of model.now.names config.now.on) }
    ensures read_back { IfOk result (λ text. config_of model.now.names text ≡ said config.now.on) }
{
    let mut text = List::new(alloc);
    let mut is_first = true;
    for i in 0..model.options() {
        if config.is_on(i) {
            add_name(&mut text, is_first, model.name(i).as_bytes())?;
            is_first = false;
        }
    }
    Ok(text)
}

/// Adds a name, after a comma unless it is the first.
fn add_name(text: &mut Text, is_first: bool, name: &[u8]) -> Result<(), Memory>
    ensures { OnOk result (text.new ≡ cond is_first (text.old ++ name.now) (text.old ++ 44
        ∷ name.now)) }
{
    if !is_first {
        text.extend_from_slice(b",")?;
    }
    text.extend_from_slice(name)
}
