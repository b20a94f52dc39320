//! Programs (6.9).
use super::built::{char_specifiers, list_of, place, suffixed};
use super::statements::{break_out, declaration, stmt};
use crate::print;
use hv_base::{List, Memory};
use hv_ctree::{BlockItem, ExternalDeclaration, FunctionDefinition, Program, Stmt, Suffix};
use std::alloc::Global;
use std::rc::Rc;
use std::test::Fail;

/// `char x ;`, in a block.
fn declares(alloc: Global) -> Result<Rc<BlockItem>, Memory> {
    let declaration = declaration(alloc)?;
    let place = place(alloc);
    Ok(Rc::new(alloc, BlockItem::Declaration { place, declaration })?)
}

/// A statement in a block.
fn does(alloc: Global, statement: Rc<Stmt>) -> Result<Rc<BlockItem>, Memory> {
    let place = place(alloc);
    Ok(Rc::new(alloc, BlockItem::Statement { place, statement })?)
}

fn compound(alloc: Global, items: List<Rc<BlockItem>>) -> Result<Rc<Stmt>, Memory> {
    let place = place(alloc);
    stmt(alloc, Stmt::Compound { place, items })
}

/// `{ char x ; { } break ; }`
fn body(alloc: Global) -> Result<Rc<Stmt>, Memory> {
    let mut items = list_of(alloc, declares(alloc)?)?;
    items.add(does(alloc, compound(alloc, List::new(alloc))?)?)?;
    items.add(does(alloc, break_out(alloc)?)?)?;
    compound(alloc, items)
}

/// `( )`
fn no_parameters(alloc: Global) -> Result<List<Rc<Suffix>>, Memory> {
    let place = place(alloc);
    list_of(alloc, Rc::new(alloc, Suffix::Unprototyped { place })?)
}

/// `char f ( ) { char x ; { } break ; }`
fn function(alloc: Global) -> Result<Rc<FunctionDefinition>, Memory> {
    let body = body(alloc)?;
    let declarator = suffixed(alloc, "f", no_parameters(alloc)?)?;
    let specifiers = char_specifiers(alloc)?;
    let place = place(alloc);
    let function = FunctionDefinition {
        place,
        specifiers,
        declarator,
        body,
    };
    Ok(Rc::new(alloc, function)?)
}

/// A function, in a program.
fn defines(alloc: Global) -> Result<Rc<ExternalDeclaration>, Memory> {
    let definition = function(alloc)?;
    let place = place(alloc);
    let external = ExternalDeclaration::Function { place, definition };
    Ok(Rc::new(alloc, external)?)
}

/// `char x ;`, in a program.
fn declares_outside(alloc: Global) -> Result<Rc<ExternalDeclaration>, Memory> {
    let declaration = declaration(alloc)?;
    let place = place(alloc);
    let external = ExternalDeclaration::Declaration { place, declaration };
    Ok(Rc::new(alloc, external)?)
}

/// `;`, in a program.
fn empty(alloc: Global) -> Result<Rc<ExternalDeclaration>, Memory> {
    let place = place(alloc);
    Ok(Rc::new(alloc, ExternalDeclaration::Empty { place })?)
}

/// `; char x ; char f ( ) { char x ; { } break ; }`
fn program(alloc: Global) -> Result<Program, Memory> {
    let mut externals = list_of(alloc, empty(alloc)?)?;
    externals.add(declares_outside(alloc)?)?;
    externals.add(defines(alloc)?)?;
    Ok(Program { externals })
}

#[test]
fn a_program_is_printed(rt: HostRuntime) -> Result<(), Fail> {
    let program = program(rt.alloc())?;
    let printed = print(rt.alloc(), &program)?;
    let shown = ";\nchar x ;\nchar f ( ) {\nchar x ;\n{\n}\nbreak ;\n}\n";
    assert!(rt; printed.is_text(shown.as_bytes()));
    Ok(())
}
