//! Nodes of trees, each made of parts that are made already.
use hv_base::{IntType, List, Memory, Place, Text};
use hv_ctree::{
    Constant, DeclarationSpecifier, Declarator, DirectDeclarator, Expr, Pointer,
    SpecifierQualifier, Suffix, TypeName, TypeQualifier, TypeSpecifier,
};
use std::alloc::Global;
use std::rc::Rc;

/// A place, which is not printed.
pub(super) fn place(alloc: Global) -> Place {
    Place {
        stack: List::new(alloc),
        file: 0,
        offset: 0,
    }
}

pub(super) fn text(alloc: Global, bytes: &str) -> Result<Text, Memory> {
    Text::from_slice(alloc, bytes.as_bytes())
}

pub(super) fn expr(alloc: Global, node: Expr) -> Result<Rc<Expr>, Memory> {
    Ok(Rc::new(alloc, node)?)
}

pub(super) fn name(alloc: Global, bytes: &str) -> Result<Rc<Expr>, Memory> {
    let name = text(alloc, bytes)?;
    let place = place(alloc);
    expr(alloc, Expr::Identifier { place, name })
}

/// The constant `1`.
pub(super) fn one(alloc: Global) -> Result<Rc<Expr>, Memory> {
    let (value, kind) = (1, IntType::Int);
    let value = Constant::Integer { value, kind };
    let place = place(alloc);
    expr(alloc, Expr::Constant { place, value })
}

/// The list of one node.
pub(super) fn list_of<T: Drop>(alloc: Global, node: Rc<T>) -> Result<List<Rc<T>>, Memory> {
    let mut list = List::new(alloc);
    list.add(node)?;
    Ok(list)
}

/// The type specifier `char`.
fn char_word(alloc: Global) -> Result<Rc<TypeSpecifier>, Memory> {
    let place = place(alloc);
    Ok(Rc::new(alloc, TypeSpecifier::Char { place })?)
}

/// The words `char` of a type name or a member.
pub(super) fn char_words(alloc: Global) -> Result<List<Rc<SpecifierQualifier>>, Memory> {
    let specifier = char_word(alloc)?;
    let place = place(alloc);
    let word = SpecifierQualifier::Type { place, specifier };
    list_of(alloc, Rc::new(alloc, word)?)
}

/// The words `char` of a declaration or a parameter.
pub(super) fn char_specifiers(alloc: Global) -> Result<List<Rc<DeclarationSpecifier>>, Memory> {
    let specifier = char_word(alloc)?;
    let place = place(alloc);
    let word = DeclarationSpecifier::Type { place, specifier };
    list_of(alloc, Rc::new(alloc, word)?)
}

/// The type name `char`.
pub(super) fn char_name(alloc: Global) -> Result<Rc<TypeName>, Memory> {
    let specifiers = char_words(alloc)?;
    let place = place(alloc);
    let name = TypeName::Of {
        place,
        specifiers,
        declarator: None,
    };
    Ok(Rc::new(alloc, name)?)
}

/// A `*` with the qualifier after it.
pub(super) fn pointer(alloc: Global, qualifier: TypeQualifier) -> Result<Pointer, Memory> {
    let qualifiers = List::from_slice(alloc, &[qualifier])?;
    let place = place(alloc);
    Ok(Pointer { place, qualifiers })
}

/// A declarator that is a name with these suffixes.
pub(super) fn suffixed(
    alloc: Global,
    bytes: &str,
    suffixes: List<Rc<Suffix>>,
) -> Result<Rc<Declarator>, Memory> {
    let direct = named(alloc, bytes)?;
    let (place, pointers) = (place(alloc), List::new(alloc));
    let declarator = Declarator::Of {
        place,
        pointers,
        direct,
        suffixes,
    };
    Ok(Rc::new(alloc, declarator)?)
}

fn named(alloc: Global, bytes: &str) -> Result<Rc<DirectDeclarator>, Memory> {
    let name = text(alloc, bytes)?;
    let place = place(alloc);
    Ok(Rc::new(alloc, DirectDeclarator::Name { place, name })?)
}

/// A declarator that is a name.
pub(super) fn declared(alloc: Global, bytes: &str) -> Result<Rc<Declarator>, Memory> {
    suffixed(alloc, bytes, List::new(alloc))
}
