//! Statements (6.8).
use super::built::{char_specifiers, declared, list_of, name, one, place};
use crate::stmt::print_stmt;
use hv_base::{List, Memory};
use hv_ctree::{Declaration, Expr, InitDeclarator, Stmt};
use std::alloc::Global;
use std::rc::Rc;
use std::test::Fail;

/// Whether the statement is printed so.
fn is_printed(alloc: Global, stmt: &Stmt, shown: &str) -> Result<bool, Memory> {
    let mut out = List::new(alloc);
    print_stmt(alloc, &mut out, stmt)?;
    Ok(out.is_text(shown.as_bytes()))
}

pub(super) fn stmt(alloc: Global, node: Stmt) -> Result<Rc<Stmt>, Memory> {
    Ok(Rc::new(alloc, node)?)
}

/// `break ;`
pub(super) fn break_out(alloc: Global) -> Result<Rc<Stmt>, Memory> {
    let place = place(alloc);
    stmt(alloc, Stmt::Break { place })
}

/// `continue ;`
fn continue_loop(alloc: Global) -> Result<Rc<Stmt>, Memory> {
    let place = place(alloc);
    stmt(alloc, Stmt::Continue { place })
}

/// `return .. ;`
fn return_with(alloc: Global, value: Option<Rc<Expr>>) -> Result<Rc<Stmt>, Memory> {
    let place = place(alloc);
    stmt(alloc, Stmt::Return { place, value })
}

/// `.. ;`
fn expression(alloc: Global, value: Option<Rc<Expr>>) -> Result<Rc<Stmt>, Memory> {
    let place = place(alloc);
    stmt(alloc, Stmt::Expression { place, value })
}

#[test]
fn jumps_and_expressions_end_with_semicolons(rt: HostRuntime) -> Result<(), Fail> {
    let jump = break_out(rt.alloc())?;
    assert!(rt; is_printed(rt.alloc(), &jump, "break ;\n")?);
    let jump = continue_loop(rt.alloc())?;
    assert!(rt; is_printed(rt.alloc(), &jump, "continue ;\n")?);
    let nothing = expression(rt.alloc(), None)?;
    assert!(rt; is_printed(rt.alloc(), &nothing, ";\n")?);
    let value = expression(rt.alloc(), Some(name(rt.alloc(), "a")?))?;
    assert!(rt; is_printed(rt.alloc(), &value, "a ;\n")?);
    Ok(())
}

#[test]
fn returns_may_have_a_value(rt: HostRuntime) -> Result<(), Fail> {
    let jump = return_with(rt.alloc(), None)?;
    assert!(rt; is_printed(rt.alloc(), &jump, "return ;\n")?);
    let jump = return_with(rt.alloc(), Some(one(rt.alloc())?))?;
    assert!(rt; is_printed(rt.alloc(), &jump, "return 1 ;\n")?);
    Ok(())
}

/// `case 1 : ..`
fn case_of(alloc: Global, body: Rc<Stmt>) -> Result<Rc<Stmt>, Memory> {
    let value = one(alloc)?;
    let place = place(alloc);
    stmt(alloc, Stmt::Case { place, value, body })
}

/// `default : ..`
fn default_of(alloc: Global, body: Rc<Stmt>) -> Result<Rc<Stmt>, Memory> {
    let place = place(alloc);
    stmt(alloc, Stmt::Default { place, body })
}

/// `switch ( a ) ..`
fn switch(alloc: Global, body: Rc<Stmt>) -> Result<Rc<Stmt>, Memory> {
    let value = name(alloc, "a")?;
    let place = place(alloc);
    stmt(alloc, Stmt::Switch { place, value, body })
}

/// `if ( a ) ..`
fn if_only(alloc: Global, body: Rc<Stmt>) -> Result<Rc<Stmt>, Memory> {
    let test = name(alloc, "a")?;
    let place = place(alloc);
    stmt(alloc, Stmt::If { place, test, body })
}

/// `if ( a ) .. else continue ;`
fn if_else(alloc: Global, body: Rc<Stmt>) -> Result<Rc<Stmt>, Memory> {
    let test = name(alloc, "a")?;
    let other = continue_loop(alloc)?;
    let place = place(alloc);
    let choice = Stmt::IfElse {
        place,
        test,
        body,
        other,
    };
    stmt(alloc, choice)
}

/// `while ( a ) ..`
fn while_do(alloc: Global, body: Rc<Stmt>) -> Result<Rc<Stmt>, Memory> {
    let test = name(alloc, "a")?;
    let place = place(alloc);
    stmt(alloc, Stmt::While { place, test, body })
}

/// `do .. while ( a ) ;`
fn do_while(alloc: Global, body: Rc<Stmt>) -> Result<Rc<Stmt>, Memory> {
    let test = name(alloc, "a")?;
    let place = place(alloc);
    stmt(alloc, Stmt::DoWhile { place, body, test })
}

/// `switch ( a ) case 1 : default : if ( a ) while ( a ) do break ; while ( a ) ;`
fn controlled(alloc: Global) -> Result<Rc<Stmt>, Memory> {
    let stmt = while_do(alloc, do_while(alloc, break_out(alloc)?)?)?;
    let stmt = default_of(alloc, if_only(alloc, stmt)?)?;
    switch(alloc, case_of(alloc, stmt)?)
}

#[test]
fn statements_stand_in_others(rt: HostRuntime) -> Result<(), Fail> {
    let stmt = controlled(rt.alloc())?;
    let shown = "switch ( a ) case 1 : default : if ( a ) while ( a ) do break ;\nwhile ( a ) ;\n";
    assert!(rt; is_printed(rt.alloc(), &stmt, shown)?);
    let choice = if_else(rt.alloc(), break_out(rt.alloc())?)?;
    let shown = "if ( a ) break ;\nelse continue ;\n";
    assert!(rt; is_printed(rt.alloc(), &choice, shown)?);
    Ok(())
}

/// `for ( ; ; ) ..`
fn for_ever(alloc: Global, body: Rc<Stmt>) -> Result<Rc<Stmt>, Memory> {
    let place = place(alloc);
    let node = Stmt::For {
        place,
        first: None,
        test: None,
        step: None,
        body,
    };
    stmt(alloc, node)
}

/// `for ( a ; b ; c ) ..`
fn for_each(alloc: Global, body: Rc<Stmt>) -> Result<Rc<Stmt>, Memory> {
    let first = Some(name(alloc, "a")?);
    let test = Some(name(alloc, "b")?);
    let step = Some(name(alloc, "c")?);
    let place = place(alloc);
    let node = Stmt::For {
        place,
        first,
        test,
        step,
        body,
    };
    stmt(alloc, node)
}

/// `for ( char x ; b ; ) ..`
fn for_declared(alloc: Global, body: Rc<Stmt>) -> Result<Rc<Stmt>, Memory> {
    let first = declaration(alloc)?;
    let test = Some(name(alloc, "b")?);
    let place = place(alloc);
    let node = Stmt::ForDeclaration {
        place,
        first,
        test,
        step: None,
        body,
    };
    stmt(alloc, node)
}

/// `char x ;`
pub(super) fn declaration(alloc: Global) -> Result<Rc<Declaration>, Memory> {
    let declarators = declarators(alloc)?;
    let specifiers = char_specifiers(alloc)?;
    let place = place(alloc);
    let declaration = Declaration {
        place,
        specifiers,
        declarators,
    };
    Ok(Rc::new(alloc, declaration)?)
}

fn declarators(alloc: Global) -> Result<List<Rc<InitDeclarator>>, Memory> {
    let declarator = declared(alloc, "x")?;
    let place = place(alloc);
    let plain = InitDeclarator::Plain { place, declarator };
    list_of(alloc, Rc::new(alloc, plain)?)
}

#[test]
fn loops_have_their_three_parts(rt: HostRuntime) -> Result<(), Fail> {
    let stmt = for_each(rt.alloc(), for_ever(rt.alloc(), break_out(rt.alloc())?)?)?;
    let shown = "for ( a ;\nb ;\nc ) for ( ;\n;\n) break ;\n";
    assert!(rt; is_printed(rt.alloc(), &stmt, shown)?);
    let stmt = for_declared(rt.alloc(), break_out(rt.alloc())?)?;
    assert!(rt; is_printed(rt.alloc(), &stmt, "for ( char x ;\nb ;\n) break ;\n")?);
    Ok(())
}
