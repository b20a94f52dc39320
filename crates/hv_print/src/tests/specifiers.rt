//! Specifiers (6.7.1 to 6.7.4).
use super::built::{char_words, declared, list_of, one, place, text};
use crate::specifier::{print_declared_words, print_type_words};
use hv_base::{Keyword, List, Memory, Place};
use hv_ctree::{
    DeclarationSpecifier, Declarator, EnumSpecifier, Enumerator, SpecifierQualifier, StorageClass,
    StructDeclaration, StructOrUnion, StructOrUnionSpecifier, Tag, TypeQualifier, TypeSpecifier,
};
use std::alloc::Global;
use std::rc::Rc;
use std::test::Fail;

/// Whether the one word of a declaration is printed so.
fn is_word(alloc: Global, word: DeclarationSpecifier, shown: &str) -> Result<bool, Memory> {
    let words = list_of(alloc, Rc::new(alloc, word)?)?;
    let mut out = List::new(alloc);
    print_declared_words(alloc, &mut out, &words)?;
    Ok(out.is_text(shown.as_bytes()))
}

/// Whether the type specifier is printed so as the one word of a type name.
fn is_type(alloc: Global, specifier: TypeSpecifier, shown: &str) -> Result<bool, Memory> {
    let specifier = Rc::new(alloc, specifier)?;
    let place = place(alloc);
    let word = SpecifierQualifier::Type { place, specifier };
    let words = list_of(alloc, Rc::new(alloc, word)?)?;
    let mut out = List::new(alloc);
    print_type_words(alloc, &mut out, &words)?;
    Ok(out.is_text(shown.as_bytes()))
}

#[test]
fn storage_classes_are_words(rt: HostRuntime) -> Result<(), Fail> {
    let rows = [
        (StorageClass::Typedef, "typedef "),
        (StorageClass::Extern, "extern "),
        (StorageClass::Static, "static "),
        (StorageClass::Auto, "auto "),
        (StorageClass::Register, "register "),
    ];
    for (storage, shown) in rows {
        let place = place(rt.alloc());
        let word = DeclarationSpecifier::Storage { place, storage };
        assert!(rt; is_word(rt.alloc(), word, shown)?, "{shown}");
    }
    Ok(())
}

#[test]
fn qualifiers_are_words(rt: HostRuntime) -> Result<(), Fail> {
    for (qualifier, shown) in [
        (TypeQualifier::Const, "const "),
        (TypeQualifier::Restrict, "restrict "),
    ] {
        let place = place(rt.alloc());
        let word = DeclarationSpecifier::Qualifier { place, qualifier };
        assert!(rt; is_word(rt.alloc(), word, shown)?, "{shown}");
    }
    let place = place(rt.alloc());
    let word = DeclarationSpecifier::Inline { place };
    assert!(rt; is_word(rt.alloc(), word, "inline ")?);
    Ok(())
}

/// The type specifier of this word; of another one, `_Bool`.
fn type_word(place: Place, word: Keyword) -> TypeSpecifier {
    match word {
        Keyword::Void => TypeSpecifier::Void { place },
        Keyword::Char => TypeSpecifier::Char { place },
        Keyword::Short => TypeSpecifier::Short { place },
        Keyword::Int => TypeSpecifier::Int { place },
        Keyword::Long => TypeSpecifier::Long { place },
        Keyword::Signed => TypeSpecifier::Signed { place },
        Keyword::Unsigned => TypeSpecifier::Unsigned { place },
        _ => TypeSpecifier::Bool { place },
    }
}

#[test]
fn types_are_words(rt: HostRuntime) -> Result<(), Fail> {
    let rows = [
        (Keyword::Void, "void "),
        (Keyword::Char, "char "),
        (Keyword::Short, "short "),
        (Keyword::Int, "int "),
        (Keyword::Long, "long "),
        (Keyword::Signed, "signed "),
        (Keyword::Unsigned, "unsigned "),
        (Keyword::Bool, "_Bool "),
    ];
    for (word, shown) in rows {
        let specifier = type_word(place(rt.alloc()), word);
        assert!(rt; is_type(rt.alloc(), specifier, shown)?, "{shown}");
    }
    let name = text(rt.alloc(), "T")?;
    let place = place(rt.alloc());
    let specifier = TypeSpecifier::TypedefName { place, name };
    assert!(rt; is_type(rt.alloc(), specifier, "T ")?);
    Ok(())
}

fn tag(alloc: Global, bytes: &str) -> Result<Tag, Memory> {
    let name = text(alloc, bytes)?;
    let place = place(alloc);
    Ok(Tag { place, name })
}

fn compound(alloc: Global, node: StructOrUnionSpecifier) -> Result<TypeSpecifier, Memory> {
    let compound = Rc::new(alloc, node)?;
    let place = place(alloc);
    Ok(TypeSpecifier::Compound { place, compound })
}

/// `union u`
fn mentioned(alloc: Global) -> Result<TypeSpecifier, Memory> {
    let tag = tag(alloc, "u")?;
    let (place, kind) = (place(alloc), StructOrUnion::Union);
    compound(
        alloc,
        StructOrUnionSpecifier::Mentioned { place, kind, tag },
    )
}

/// `char .. ;`
fn members(
    alloc: Global,
    declarators: List<Rc<Declarator>>,
) -> Result<List<Rc<StructDeclaration>>, Memory> {
    let specifiers = char_words(alloc)?;
    let place = place(alloc);
    let members = StructDeclaration::Of {
        place,
        specifiers,
        declarators,
    };
    list_of(alloc, Rc::new(alloc, members)?)
}

/// `x , y`
fn two_names(alloc: Global) -> Result<List<Rc<Declarator>>, Memory> {
    let mut names = list_of(alloc, declared(alloc, "x")?)?;
    names.add(declared(alloc, "y")?)?;
    Ok(names)
}

/// `struct { char x , y ; }`, with or without a tag.
fn defined(alloc: Global, tag: Option<Tag>) -> Result<TypeSpecifier, Memory> {
    let members = members(alloc, two_names(alloc)?)?;
    let (place, kind) = (place(alloc), StructOrUnion::Struct);
    let node = StructOrUnionSpecifier::Defined {
        place,
        kind,
        tag,
        members,
    };
    compound(alloc, node)
}

#[test]
fn structures_have_their_members(rt: HostRuntime) -> Result<(), Fail> {
    let union = mentioned(rt.alloc())?;
    assert!(rt; is_type(rt.alloc(), union, "union u ")?);
    let unnamed = defined(rt.alloc(), None)?;
    assert!(rt; is_type(rt.alloc(), unnamed, "struct {\nchar x , y ;\n}\n")?);
    let tag = tag(rt.alloc(), "s")?;
    let named = defined(rt.alloc(), Some(tag))?;
    assert!(rt; is_type(rt.alloc(), named, "struct s {\nchar x , y ;\n}\n")?);
    Ok(())
}

fn enumeration(alloc: Global, node: EnumSpecifier) -> Result<TypeSpecifier, Memory> {
    let enumeration = Rc::new(alloc, node)?;
    let place = place(alloc);
    Ok(TypeSpecifier::Enumeration { place, enumeration })
}

fn plain(alloc: Global) -> Result<Rc<Enumerator>, Memory> {
    let name = text(alloc, "A")?;
    let place = place(alloc);
    Ok(Rc::new(alloc, Enumerator::Plain { place, name })?)
}

fn valued(alloc: Global) -> Result<Rc<Enumerator>, Memory> {
    let name = text(alloc, "B")?;
    let value = one(alloc)?;
    let place = place(alloc);
    Ok(Rc::new(alloc, Enumerator::Valued { place, name, value })?)
}

/// `A , B = 1`
fn enumerators(alloc: Global) -> Result<List<Rc<Enumerator>>, Memory> {
    let mut list = list_of(alloc, plain(alloc)?)?;
    list.add(valued(alloc)?)?;
    Ok(list)
}

/// `enum e { A , B = 1 }`
fn listed(alloc: Global) -> Result<TypeSpecifier, Memory> {
    let tag = Some(tag(alloc, "e")?);
    let enumerators = enumerators(alloc)?;
    let place = place(alloc);
    let node = EnumSpecifier::Listed {
        place,
        tag,
        enumerators,
    };
    enumeration(alloc, node)
}

/// `enum { A , B = 1 , }`
fn listed_comma(alloc: Global) -> Result<TypeSpecifier, Memory> {
    let enumerators = enumerators(alloc)?;
    let place = place(alloc);
    let node = EnumSpecifier::ListedComma {
        place,
        tag: None,
        enumerators,
    };
    enumeration(alloc, node)
}

#[test]
fn enumerations_have_their_constants(rt: HostRuntime) -> Result<(), Fail> {
    let tag = tag(rt.alloc(), "e")?;
    let place = place(rt.alloc());
    let mentioned = enumeration(rt.alloc(), EnumSpecifier::Mentioned { place, tag })?;
    assert!(rt; is_type(rt.alloc(), mentioned, "enum e ")?);
    let listed = listed(rt.alloc())?;
    assert!(rt; is_type(rt.alloc(), listed, "enum e {\nA , B = 1 }\n")?);
    let comma = listed_comma(rt.alloc())?;
    assert!(rt; is_type(rt.alloc(), comma, "enum {\nA , B = 1 , }\n")?);
    Ok(())
}
