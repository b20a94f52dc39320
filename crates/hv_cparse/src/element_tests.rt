//! First refusals of elements, each worked out by hand from the grammar.
use super::*;
use crate::tests::token_of;
use std::alloc::Global;
use std::test::Fail;

/// The index of the first refusal of an element's own tokens, where `@` is a hole; the number of
/// tokens where more are wanted.
fn refusal(alloc: Global, standing: Standing, text: &str) -> Result<Option<usize>, Fail> {
    let mut machine = Control::begin(alloc, standing);
    let mut at: usize = 0;
    for word in text.as_bytes().split(|byte| *byte == b' ') {
        let class = match word {
            b"@" => Class::Hole,
            _ => class_of(&token_of(alloc, word)?, word == b"T".as_slice()),
        };
        if machine.take(Limits::of_source(), class)?.is_some() {
            return Ok(Some(at));
        }
        at = at.saturating_add(1);
    }
    Ok(if machine.finish_element() {
        None
    } else {
        Some(at)
    })
}

#[test]
fn elements_are_taken(rt: HostRuntime) -> Result<(), Fail> {
    let table: [(Standing, &str); 31] = [
        (Standing::External, ";"),
        (Standing::External, "int ;"),
        (Standing::External, "static const T a , * b ;"),
        (Standing::External, "int f ( T x , ... ) { @ }"),
        (Standing::External, "int ( * f ( int ) ) ( T ) { @ }"),
        (Standing::External, "typedef struct s { int a ; } t , * u ;"),
        (Standing::External, "enum e { A , B = 1 } x = A ;"),
        (Standing::Item, "T a = 1 , b [ 2 ] = { 1 , 2 } , c ;"),
        (
            Standing::Item,
            "T a = { . x = { 1 , } , [ 1 ] = b , { c } } ;",
        ),
        (Standing::Item, "int a = ( T ) b ;"),
        (Standing::Item, "a = b , c ;"),
        (Standing::Item, ";"),
        (Standing::Item, "{ @ }"),
        (Standing::Nested, "case a ? b : c : @"),
        (Standing::Nested, "default : @"),
        (Standing::Nested, "if ( a , b ) @"),
        (Standing::Nested, "if ( a ) @ else @"),
        (Standing::Nested, "switch ( a ) @"),
        (Standing::Nested, "while ( ( T ) a ) @"),
        (Standing::Nested, "do @ while ( a ) ;"),
        (Standing::Nested, "for ( ; ; ) @"),
        (Standing::Nested, "for ( a ; b ; c , d ) @"),
        (Standing::Nested, "for ( T a = 1 , b ; ; ++ a ) @"),
        (Standing::Nested, "for ( T a = 1 ; a ; ) @"),
        (Standing::Nested, "continue ;"),
        (Standing::Nested, "break ;"),
        (Standing::Nested, "return ;"),
        (Standing::Nested, "return a , b ;"),
        (Standing::Nested, "f ( ) ;"),
        (Standing::Nested, "sizeof ( T ) ;"),
        (Standing::Nested, "( T ) a ;"),
    ];
    for (standing, text) in table {
        assert_eq!(&rt; refusal(rt.alloc(), standing, text)?, None, "{text}");
    }
    Ok(())
}

#[test]
fn the_first_refusal_of_an_element_is_found(rt: HostRuntime) -> Result<(), Fail> {
    let table: [(Standing, &str, usize); 22] = [
        (Standing::External, "a ;", 0),
        (Standing::External, "{ @ }", 0),
        (Standing::External, "int f ( ) , g ( ) { @ }", 8),
        (Standing::Item, "int f ( ) { @ }", 4),
        (Standing::External, "int a = { }", 4),
        (Standing::External, "int a = b , , c", 5),
        (Standing::External, "int a = { . x 1", 6),
        (Standing::External, "int a = { [ 1 , 2 ]", 6),
        (Standing::External, "int a = 1 } ;", 4),
        (Standing::Item, "int a b", 2),
        (Standing::Item, "int * ;", 2),
        (Standing::Nested, "T a ;", 0),
        (Standing::Nested, "case a , b :", 2),
        (Standing::Nested, "if a", 1),
        (Standing::Nested, "if ( ) @", 2),
        (Standing::Nested, "do @ while ( a ) @", 6),
        (Standing::Nested, "for ( ; ) @", 3),
        (Standing::Nested, "for ( a ; b ; c ; @", 7),
        (Standing::Nested, "for ( int a { @ }", 4),
        (Standing::Nested, "return T ;", 1),
        (Standing::Nested, "a )", 1),
        (Standing::Nested, "if ( a ) @ @", 5),
    ];
    for (standing, text, at) in table {
        assert_eq!(&rt; refusal(rt.alloc(), standing, text)?, Some(at), "{text}");
    }
    Ok(())
}
