//! Rows of elements and expressions, each worked out by hand from the grammar.
use super::*;
use hv_base::{CTok, IntType, Keyword, List, Memory, Place, Punct, Start, Text, Why};
use hv_cparse::{Limits, ParseFault, Standing};
use hv_toks::Classified;
use std::alloc::Global;
use std::test::Fail;

/// The token that a word of the rows below is.
fn token_of(alloc: Global, word: &[u8]) -> Result<CTok, Memory> {
    if let Some(keyword) = Keyword::from_spelling(word) {
        return Ok(CTok::Keyword(keyword));
    }
    if let Some(punct) = Punct::from_spelling(word) {
        return Ok(CTok::Punct(punct));
    }
    Ok(match word {
        [b'0'..=b'9', ..] => CTok::Int {
            value: 1,
            kind: IntType::Int,
        },
        [b'"', ..] => CTok::Str(Text::from_slice(alloc, word)?),
        _ => CTok::Name(Text::from_slice(alloc, word)?),
    })
}

/// The token that a word is; `T` is a typedef name.
fn classified(alloc: Global, word: &[u8]) -> Result<Classified, Memory> {
    Ok(Classified {
        tok: token_of(alloc, word)?,
        start: Start {
            place: Place {
                stack: List::new(alloc),
                file: 0,
                offset: 0,
            },
            face: 0,
            index: 0,
        },
        typedef: word == b"T".as_slice(),
    })
}

/// The piece that a word is; `@` is a hole.
fn piece_of(alloc: Global, word: &[u8]) -> Result<Piece, Memory> {
    Ok(match word {
        b"@" => Piece::Hole,
        _ => Piece::Token(classified(alloc, word)?),
    })
}

/// What is said of an element's own tokens.
fn check(alloc: Global, standing: Standing, text: &str) -> Result<Result<(), ParseFault>, Fail> {
    let mut pieces = Vec::new(alloc);
    for word in text.as_bytes().split(|byte| *byte == b' ') {
        pieces.push(piece_of(alloc, word)?)?;
    }
    Ok(check_element(alloc, Limits::of_source(), standing, pieces.as_slice()))
}

#[test]
fn elements_are_taken(rt: HostRuntime) -> Result<(), Fail> {
    let table: [(Standing, &str); 8] = [
        (Standing::External, ";"),
        (Standing::External, "int f ( T x , ... ) { @ }"),
        (Standing::Item, "T a = { . x = { 1 , } , [ 1 ] = b } ;"),
        (Standing::Item, "{ @ }"),
        (Standing::Nested, "if ( a ) @ else @"),
        (Standing::Nested, "do @ while ( a ) ;"),
        (Standing::Nested, "for ( T a = 1 ; ; ++ a ) @"),
        (Standing::Nested, "case a ? b : c : @"),
    ];
    for (standing, text) in table {
        assert_eq!(&rt; check(rt.alloc(), standing, text)?, Ok(()), "{text}");
    }
    Ok(())
}

#[test]
fn the_first_refusal_of_an_element_is_found(rt: HostRuntime) -> Result<(), Fail> {
    let table: [(Standing, &str, usize); 8] = [
        (Standing::External, "a ;", 0),
        (Standing::External, "int f ( ) , g ( ) { @ }", 8),
        (Standing::Item, "int f ( ) { @ }", 4),
        (Standing::Item, "int * ;", 2),
        (Standing::Nested, "T a ;", 0),
        (Standing::Nested, "case a , b :", 2),
        (Standing::Nested, "if ( a ) @ @", 5),
        (Standing::Nested, "do @ while ( a )", 6),
    ];
    for (standing, text, at) in table {
        let why = Why::Syntax;
        assert_eq!(&rt;
            check(rt.alloc(), standing, text)?,
            Err(ParseFault::Plain { at, why }),
            "{text}"
        );
    }
    Ok(())
}
