//! The names of a model's options.
ghost use Rattle.std.specs.Prelude.{◌≡◌, ◌<◌, ◌≤◌, [], false, Some, slice_get, position, length, OnErr, OnOk, IsTrue, ◌∷◌, ◌++◌};
ghost use Rattle.std.specs.List.{list_any};
ghost use Rattle.std.specs.Str.{bytes_eq};
ghost use Rattle.hv_model.specs.Grammar.{place_of};
ghost use Rattle.hv_model.specs.Name.{AllOptionNames, are_distinct, is_option_name as option_name};

use std::alloc::{AllocError, Global};

/// The names of a model's options, in order. Contracts see them as the list of these.
#[derive(Debug, Drop)]
pub(crate) struct Names {
    names: Vec<String>,
}

impl std::marker::Model for Names {
    ghost use Rattle.std.specs.Prelude.{ℕ, List, map, length, ◌≤◌};
    ghost use Rattle.std.specs.String.{string_bytes};
    ghost use Rattle.std.specs.Prelude.{IsTrue};
    ghost use Rattle.hv_model.specs.Name.{AllOptionNames, are_distinct};

    ghost Value = { List (List ℕ) };

    ghost view = { λ m. map string_bytes m.names.items };

    ghost invariant = { λ m. AllOptionNames (map string_bytes m.names.items)
        × (length m.names.items ≤ 256) × IsTrue (are_distinct (map string_bytes m.names.items)) };
}

impl Names {
    pub(crate) fn new(alloc: Global) -> Names
        ensures { result ≡ [] }
    {
        Names {
            names: Vec::new(alloc),
        }
    }

    pub(crate) fn len(&self) -> usize
        ensures count { result ≡ length self.now }
        ensures limit { result ≤ 256 }
        ensures names { AllOptionNames self.now }
        ensures distinct { IsTrue (are_distinct self.now) }
    {
        self.names.len()
    }

    /// The name of the option of this number.
    pub(crate) fn name(&self, i: usize) -> &str
        requires { i < length self.now }
        ensures { slice_get self.now i ≡ Some result.now }
    {
        self.names[i].as_str()
    }

    /// The number of the option of this name, if there is one.
    pub(crate) fn position(&self, name: &[u8]) -> Option<usize>
        ensures { result ≡ position (bytes_eq name.now) self.now }
    {
        self.names
            .iter()
            .position(|option| name == option.as_bytes())
    }

    /// The number of the option of this name, or the number after the last.
    pub(crate) fn place(&self, name: &[u8]) -> u16
        ensures { result ≡ place_of self.now name.now }
    {
        let place = self.position(name).unwrap_or(self.len());
        place as u16
    }

    /// Whether there is an option of this name.
    pub(crate) fn contains(&self, name: &[u8]) -> bool
        ensures { result ≡ list_any (bytes_eq name.now) self.now }
    {
        self.names.iter().any(|option| name == option.as_bytes())
    }

    /// Adds an option at the end.
    pub(crate) fn push(&mut self, name: &[u8]) -> Result<(), AllocError>
        requires named { IsTrue (option_name name.now) }
        requires room { length self.old < 256 }
        requires fresh { list_any (bytes_eq name.now) self.old ≡ false }
        ensures added { OnOk result (self.new ≡ self.old ++ name.now ∷ []) }
        ensures unchanged { OnErr result (self.new ≡ self.old) }
    {
        let Ok(text) = str::from_utf8(name) else {
            unreachable!("an option's name is ASCII");
        };
        let Ok(option) = String::from_str(*self.names.allocator(), text) else {
            return Err(AllocError);
        };
        match self.names.push(option) {
            Ok(()) => Ok(()),
            Err(_) => Err(AllocError),
        }
    }
}
