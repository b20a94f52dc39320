//! Declarators and type names (6.7.5, 6.7.6).
use super::built::{char_specifiers, char_words, declared, list_of, one, place, pointer, suffixed};
use crate::declarator::print_declarator;
use crate::expr::print_expr;
use hv_base::{List, Memory};
use hv_ctree::{
    AbstractDeclarator, Declarator, DirectAbstractDeclarator, DirectDeclarator, Expr,
    ParameterDeclaration, ParameterTypeList, Pointer, Suffix, TypeName, TypeQualifier,
};
use std::alloc::Global;
use std::rc::Rc;
use std::test::Fail;

/// Whether the declarator is printed so.
fn is_declarator(alloc: Global, declarator: &Declarator, shown: &str) -> Result<bool, Memory> {
    let mut out = List::new(alloc);
    print_declarator(alloc, &mut out, declarator)?;
    Ok(out.is_text(shown.as_bytes()))
}

/// `* const * restrict`
fn pointers(alloc: Global) -> Result<List<Pointer>, Memory> {
    let mut pointers = List::new(alloc);
    pointers.add(pointer(alloc, TypeQualifier::Const)?)?;
    pointers.add(pointer(alloc, TypeQualifier::Restrict)?)?;
    Ok(pointers)
}

/// `( .. )`
fn group(alloc: Global, inner: Rc<Declarator>) -> Result<Rc<DirectDeclarator>, Memory> {
    let place = place(alloc);
    Ok(Rc::new(alloc, DirectDeclarator::Group { place, inner })?)
}

/// `* const * restrict ( f ) ..`
fn pointing(alloc: Global, suffixes: List<Rc<Suffix>>) -> Result<Declarator, Memory> {
    let direct = group(alloc, declared(alloc, "f")?)?;
    let pointers = pointers(alloc)?;
    let place = place(alloc);
    Ok(Declarator::Of {
        place,
        pointers,
        direct,
        suffixes,
    })
}

/// `[ const ]`
fn empty_brackets(alloc: Global) -> Result<Rc<Suffix>, Memory> {
    let qualifiers = List::from_slice(alloc, &[TypeQualifier::Const])?;
    let place = place(alloc);
    Ok(Rc::new(alloc, Suffix::Unsized { place, qualifiers })?)
}

/// `[ 1 ]`
fn sized(alloc: Global) -> Result<Rc<Suffix>, Memory> {
    let length = one(alloc)?;
    let (place, qualifiers) = (place(alloc), List::new(alloc));
    let suffix = Suffix::Sized {
        place,
        qualifiers,
        length,
    };
    Ok(Rc::new(alloc, suffix)?)
}

/// `( )`
fn unprototyped(alloc: Global) -> Result<Rc<Suffix>, Memory> {
    let place = place(alloc);
    Ok(Rc::new(alloc, Suffix::Unprototyped { place })?)
}

/// `[ const ] [ 1 ] ( )`
fn suffixes(alloc: Global) -> Result<List<Rc<Suffix>>, Memory> {
    let mut suffixes = list_of(alloc, empty_brackets(alloc)?)?;
    suffixes.add(sized(alloc)?)?;
    suffixes.add(unprototyped(alloc)?)?;
    Ok(suffixes)
}

#[test]
fn declarators_have_what_stands_around_them(rt: HostRuntime) -> Result<(), Fail> {
    let suffixes = suffixes(rt.alloc())?;
    let declarator = pointing(rt.alloc(), suffixes)?;
    let shown = "* const * restrict ( f ) [ const ] [ 1 ] ( ) ";
    assert!(rt; is_declarator(rt.alloc(), &declarator, shown)?);
    Ok(())
}

/// `char a`
fn named(alloc: Global) -> Result<Rc<ParameterDeclaration>, Memory> {
    let specifiers = char_specifiers(alloc)?;
    let declarator = declared(alloc, "a")?;
    let place = place(alloc);
    let parameter = ParameterDeclaration::Named {
        place,
        specifiers,
        declarator,
    };
    Ok(Rc::new(alloc, parameter)?)
}

/// `char ..`
fn unnamed(
    alloc: Global,
    declarator: Option<Rc<AbstractDeclarator>>,
) -> Result<Rc<ParameterDeclaration>, Memory> {
    let specifiers = char_specifiers(alloc)?;
    let place = place(alloc);
    let parameter = ParameterDeclaration::Abstract {
        place,
        specifiers,
        declarator,
    };
    Ok(Rc::new(alloc, parameter)?)
}

/// `char a , char`
fn parameters(alloc: Global) -> Result<List<Rc<ParameterDeclaration>>, Memory> {
    let mut parameters = list_of(alloc, named(alloc)?)?;
    parameters.add(unnamed(alloc, None)?)?;
    Ok(parameters)
}

/// `( char a , char )`, with `, ...` at the end where so.
fn function(alloc: Global, is_variadic: bool) -> Result<Rc<Suffix>, Memory> {
    let parameters = parameters(alloc)?;
    let place = place(alloc);
    let types = if is_variadic {
        ParameterTypeList::Variadic { place, parameters }
    } else {
        ParameterTypeList::Fixed { place, parameters }
    };
    suffix_of(alloc, types)
}

fn suffix_of(alloc: Global, types: ParameterTypeList) -> Result<Rc<Suffix>, Memory> {
    let parameters = Rc::new(alloc, types)?;
    let place = place(alloc);
    Ok(Rc::new(alloc, Suffix::Function { place, parameters })?)
}

#[test]
fn parameters_stand_between_commas(rt: HostRuntime) -> Result<(), Fail> {
    let rows = [
        (false, "f ( char a , char ) "),
        (true, "f ( char a , char , ... ) "),
    ];
    for (is_variadic, shown) in rows {
        let suffixes = list_of(rt.alloc(), function(rt.alloc(), is_variadic)?)?;
        let declarator = suffixed(rt.alloc(), "f", suffixes)?;
        assert!(rt; is_declarator(rt.alloc(), &declarator, shown)?, "{shown}");
    }
    Ok(())
}

/// `* const .. ..`
fn abstracted(
    alloc: Global,
    direct: Option<Rc<DirectAbstractDeclarator>>,
    suffixes: List<Rc<Suffix>>,
) -> Result<Rc<AbstractDeclarator>, Memory> {
    let mut pointers = List::new(alloc);
    pointers.add(pointer(alloc, TypeQualifier::Const)?)?;
    let place = place(alloc);
    let declarator = AbstractDeclarator::Of {
        place,
        pointers,
        direct,
        suffixes,
    };
    Ok(Rc::new(alloc, declarator)?)
}

/// `* const ( * const ) ( )`
fn nested(alloc: Global) -> Result<Rc<AbstractDeclarator>, Memory> {
    let inner = abstracted(alloc, None, List::new(alloc))?;
    let place = place(alloc);
    let direct = Rc::new(alloc, DirectAbstractDeclarator::Group { place, inner })?;
    let suffixes = list_of(alloc, unprototyped(alloc)?)?;
    abstracted(alloc, Some(direct), suffixes)
}

/// `sizeof ( char * const ( * const ) ( ) )`
fn size_of_nested(alloc: Global) -> Result<Expr, Memory> {
    let declarator = Some(nested(alloc)?);
    let specifiers = char_words(alloc)?;
    let place = place(alloc);
    let of = TypeName::Of {
        place,
        specifiers,
        declarator,
    };
    size_of(alloc, of)
}

fn size_of(alloc: Global, of: TypeName) -> Result<Expr, Memory> {
    let of = Rc::new(alloc, of)?;
    let place = place(alloc);
    Ok(Expr::SizeofType { place, of })
}

#[test]
fn type_names_have_their_declarators(rt: HostRuntime) -> Result<(), Fail> {
    let expr = size_of_nested(rt.alloc())?;
    let mut out = List::new(rt.alloc());
    print_expr(rt.alloc(), &mut out, &expr)?;
    assert!(rt; out.is_text(b"sizeof ( char * const ( * const ) ( ) ) "));
    Ok(())
}
