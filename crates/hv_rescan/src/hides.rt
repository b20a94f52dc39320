//! Sets of names that a token hides.
ghost use Rattle.std.specs.Prelude.{◌≡◌, ◌∷◌, ◌++◌, [], map, IfOk, OnOk};
ghost use Rattle.std.specs.List.{list_any};
ghost use Rattle.std.specs.Str.{bytes_eq};
ghost use Rattle.hv_base.specs.Ascii.{is_among};
ghost use Rattle.hv_plain.specs.episode.Tokens.{both, either};
ghost use Rattle.hv_rescan.specs.Values.{hides_of, names_in};
ghost use Rattle.hv_rescan.specs.working.Steps.{chosen};

use hv_base::{List, Memory, Text};
use std::alloc::Global;
use std::rc::Rc;

/// The names of the macros that a token comes from, which it doesn't begin again (ISO/IEC
/// 9899:1999, 6.10.3.4, paragraph 2). Sets and names are shared.
#[derive(Debug, Drop)]
pub struct Hides {
    pub(crate) names: Option<Rc<List<Rc<Text>>>>,
}

/// Adds names, which are shared, at the end.
fn add_all(names: &mut List<Rc<Text>>, others: &[Rc<Text>]) -> Result<(), Memory>
    ensures { OnOk result (names_in names.new ≡ names_in names.old ++ names_in others.now) }
{
    for other in others {
        names.add(other.clone()?)?;
    }
    Ok(())
}

/// Adds those of the names that are among others, or those that aren't.
fn add_where(
    names: &mut List<Rc<Text>>,
    own: &[Rc<Text>],
    others: &Hides,
    among: bool,
) -> Result<(), Memory>
    ensures { OnOk result (names_in names.new
        ≡ names_in names.old ++ chosen among (hides_of others.now) (names_in own.now)) }
{
    for name in own {
        if others.contains(name.as_slice()) == among {
            names.add(name.clone()?)?;
        }
    }
    Ok(())
}

/// Whether a name is one of these.
fn is_in(names: &[Rc<Text>], name: &[u8]) -> bool
    ensures { result ≡ list_any (λ own. bytes_eq name.now own.value) names.now }
{
    names.iter().any(|own| name == own.as_slice())
}

impl Hides {
    /// No names.
    pub(crate) fn none() -> Hides
        ensures { hides_of result ≡ [] }
    {
        Hides { names: None }
    }

    fn as_slice(&self) -> &[Rc<Text>]
        ensures { names_in result.now ≡ hides_of self.now }
    {
        match &self.names {
            None => &[],
            Some(names) => names.as_slice(),
        }
    }

    /// The same names.
    pub(crate) fn copy(&self) -> Result<Hides, Memory>
        ensures { IfOk result (λ hides. hides_of hides ≡ hides_of self.now) }
    {
        match &self.names {
            None => Ok(Hides { names: None }),
            Some(names) => Ok(Hides {
                names: Some(names.clone()?),
            }),
        }
    }

    /// Whether the name is one of them.
    pub(crate) fn contains(&self, name: &[u8]) -> bool
        ensures { result ≡ is_among name.now (hides_of self.now) }
    {
        is_in(self.as_slice(), name)
    }

    /// A name, and these.
    pub(crate) fn with(&self, alloc: Global, name: Rc<Text>) -> Result<Hides, Memory>
        ensures { IfOk result (λ hides. hides_of hides ≡ name.value ∷ hides_of self.now) }
    {
        let mut names = List::new(alloc);
        names.add(name)?;
        add_all(&mut names, self.as_slice())?;
        Ok(Hides {
            names: Some(Rc::new(alloc, names)?),
        })
    }

    /// The names that are in both sets.
    pub(crate) fn both(&self, alloc: Global, other: &Hides) -> Result<Hides, Memory>
        ensures { IfOk result
            (λ hides. hides_of hides ≡ both (hides_of self.now) (hides_of other.now)) }
    {
        let mut names = List::new(alloc);
        add_where(&mut names, self.as_slice(), other, true)?;
        Ok(Hides {
            names: Some(Rc::new(alloc, names)?),
        })
    }

    /// The names that are in one of two sets.
    pub(crate) fn either(&self, alloc: Global, other: &Hides) -> Result<Hides, Memory>
        ensures { IfOk result
            (λ hides. hides_of hides ≡ either (hides_of self.now) (hides_of other.now)) }
    {
        if self.as_slice().is_empty() {
            return other.copy();
        }
        let mut names = List::new(alloc);
        add_where(&mut names, self.as_slice(), other, false)?;
        add_all(&mut names, other.as_slice())?;
        Ok(Hides {
            names: Some(Rc::new(alloc, names)?),
        })
    }
}
