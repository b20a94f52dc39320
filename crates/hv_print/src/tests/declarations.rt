//! Declarations and initialisers (6.7, 6.7.8).
use super::built::{char_specifiers, declared, list_of, name, one, place, text};
use crate::declaration::print_declaration;
use hv_base::{List, Memory};
use hv_ctree::{Declaration, Designator, InitDeclarator, Initializer, InitializerItem};
use std::alloc::Global;
use std::rc::Rc;
use std::test::Fail;

/// Whether the declaration of these declarators is printed so.
fn is_declared(
    alloc: Global,
    declarators: List<Rc<InitDeclarator>>,
    shown: &str,
) -> Result<bool, Memory> {
    let specifiers = char_specifiers(alloc)?;
    let place = place(alloc);
    let declaration = Declaration {
        place,
        specifiers,
        declarators,
    };
    let mut out = List::new(alloc);
    print_declaration(alloc, &mut out, &declaration)?;
    Ok(out.is_text(shown.as_bytes()))
}

/// `x`
fn plain(alloc: Global) -> Result<Rc<InitDeclarator>, Memory> {
    let declarator = declared(alloc, "x")?;
    let place = place(alloc);
    Ok(Rc::new(alloc, InitDeclarator::Plain { place, declarator })?)
}

/// `y = ..`
fn initialized(alloc: Global, node: Initializer) -> Result<Rc<InitDeclarator>, Memory> {
    let declarator = declared(alloc, "y")?;
    let initializer = Rc::new(alloc, node)?;
    let place = place(alloc);
    let declarator = InitDeclarator::Initialized {
        place,
        declarator,
        initializer,
    };
    Ok(Rc::new(alloc, declarator)?)
}

/// `a`
fn value(alloc: Global) -> Result<Initializer, Memory> {
    let value = name(alloc, "a")?;
    let place = place(alloc);
    Ok(Initializer::Expression { place, value })
}

#[test]
fn declarations_have_their_declarators(rt: HostRuntime) -> Result<(), Fail> {
    let none = List::new(rt.alloc());
    assert!(rt; is_declared(rt.alloc(), none, "char ;\n")?);
    let value = value(rt.alloc())?;
    let mut two = list_of(rt.alloc(), plain(rt.alloc())?)?;
    two.add(initialized(rt.alloc(), value)?)?;
    assert!(rt; is_declared(rt.alloc(), two, "char x , y = a ;\n")?);
    Ok(())
}

/// An initialiser of one part, for what the designator says, if there is one.
fn item(
    alloc: Global,
    designator: Option<Designator>,
    initializer: Initializer,
) -> Result<Rc<InitializerItem>, Memory> {
    let initializer = Rc::new(alloc, initializer)?;
    match designator {
        Some(designator) => designated(alloc, designator, initializer),
        None => {
            let place = place(alloc);
            Ok(Rc::new(alloc, InitializerItem::Plain { place, initializer })?)
        }
    }
}

fn designated(
    alloc: Global,
    designator: Designator,
    initializer: Rc<Initializer>,
) -> Result<Rc<InitializerItem>, Memory> {
    let designator = Rc::new(alloc, designator)?;
    let place = place(alloc);
    let item = InitializerItem::Designated {
        place,
        designator,
        initializer,
    };
    Ok(Rc::new(alloc, item)?)
}

/// `[ 1 ] = a`
fn at_index(alloc: Global) -> Result<Rc<InitializerItem>, Memory> {
    let index = one(alloc)?;
    let value = value(alloc)?;
    let place = place(alloc);
    item(alloc, Some(Designator::Index { place, index }), value)
}

/// `. m = { a , }`
fn at_member(alloc: Global) -> Result<Rc<InitializerItem>, Memory> {
    let name = text(alloc, "m")?;
    let list = list_with_comma(alloc)?;
    let place = place(alloc);
    item(alloc, Some(Designator::Member { place, name }), list)
}

/// `{ a , }`
fn list_with_comma(alloc: Global) -> Result<Initializer, Memory> {
    let item = item(alloc, None, value(alloc)?)?;
    let items = list_of(alloc, item)?;
    let place = place(alloc);
    Ok(Initializer::ListComma { place, items })
}

/// `{ [ 1 ] = a , . m = { a , } }`
fn list(alloc: Global) -> Result<Initializer, Memory> {
    let mut items = list_of(alloc, at_index(alloc)?)?;
    items.add(at_member(alloc)?)?;
    let place = place(alloc);
    Ok(Initializer::List { place, items })
}

#[test]
fn initializers_stand_in_braces(rt: HostRuntime) -> Result<(), Fail> {
    let list = list(rt.alloc())?;
    let declarators = list_of(rt.alloc(), initialized(rt.alloc(), list)?)?;
    let shown = "char y = {\n[ 1 ] = a , . m = {\na , }\n}\n;\n";
    assert!(rt; is_declared(rt.alloc(), declarators, shown)?);
    Ok(())
}
