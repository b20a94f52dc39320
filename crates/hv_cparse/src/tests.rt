//! First refusals of rows, each worked out by hand from the grammar.
use super::*;
use hv_base::{CTok, IntType, Keyword, List, Memory, Place, Punct, Start, Text, Why};
use hv_toks::Classified;
use std::alloc::Global;
use std::test::Fail;

/// The token that a word of the rows below is; `T` is a typedef name.
pub(crate) fn token_of(alloc: Global, word: &[u8]) -> Result<CTok, Memory> {
    if let Some(keyword) = Keyword::from_spelling(word) {
        return Ok(CTok::Keyword(keyword));
    }
    if let Some(punct) = Punct::from_spelling(word) {
        return Ok(CTok::Punct(punct));
    }
    Ok(match word {
        [b'0'..=b'9', ..] => CTok::Int {
            value: 1,
            kind: IntType::Int,
        },
        [b'"', ..] => CTok::Str(Text::from_slice(alloc, word)?),
        _ => CTok::Name(Text::from_slice(alloc, word)?),
    })
}

fn classified(alloc: Global, word: &[u8]) -> Result<Classified, Memory> {
    Ok(Classified {
        tok: token_of(alloc, word)?,
        start: Start {
            place: Place {
                stack: List::new(alloc),
                file: 0,
                offset: 0,
            },
            face: 0,
            index: 0,
        },
        typedef: word == b"T".as_slice(),
    })
}

/// What is said of the tokens between the blanks of a text.
fn check(alloc: Global, text: &str) -> Result<Result<(), ParseFault>, Fail> {
    let mut tokens = Vec::new(alloc);
    for word in text.as_bytes().split(|byte| *byte == b' ') {
        tokens.push(classified(alloc, word)?)?;
    }
    Ok(check_expression(alloc, Limits::of_source(), tokens.as_slice()))
}

#[test]
fn expressions_are_taken(rt: HostRuntime) -> Result<(), Fail> {
    let table: [&str; 44] = [
        "a",
        "1",
        "\"s\"",
        "( a )",
        "a [ 1 ]",
        "f ( )",
        "f ( a , b = c )",
        "a . b",
        "a -> b",
        "a ++ --",
        "++ -- a",
        "- + ~ ! & * a",
        "sizeof a",
        "sizeof ( a )",
        "sizeof ( T )",
        "sizeof ( T ) * a",
        "( T ) a",
        "( T ) ( T ) - a",
        "* ( T ) a = b",
        "a ++ = b",
        "1 = 2",
        "sizeof ( T ) = b",
        "a * b / c % d + e - f << g >> h < i > j <= k >= l == m != n & o ^ p | q && r || s",
        "a ? b , c : d ? e : f",
        "a = b *= c",
        "a , b",
        "a [ b , c ]",
        "( int const * restrict * ) a",
        "( int ( * ) [ 2 ] ) a",
        "( int ( T ) ) a",
        "( int ( int , T x , ... ) ) a",
        "( int ( int ( T ) , int ( * p ) ( ) ) ) a",
        "( int [ ] [ const ] [ b = c ] ) a",
        "( struct s ) a",
        "( struct s { int a , * b ; T c ; } ) a",
        "( union { int x ; } ) a",
        "( enum e ) a",
        "( enum { A , B = 1 , } ) a",
        "( enum e { A } ) a",
        "( const T ) a",
        "( unsigned long int long ) a",
        "( int ( register T ) ) a",
        "sizeof sizeof ( int [ sizeof ( T ) ] )",
        "f ( ( T ) a ) ( b )",
    ];
    for text in table {
        assert_eq!(&rt; check(rt.alloc(), text)?, Ok(()), "{text}");
    }
    Ok(())
}

#[test]
fn the_first_refusal_is_found(rt: HostRuntime) -> Result<(), Fail> {
    let table: [(&str, usize); 36] = [
        ("a + b = c", 3),
        ("( T ) a = b", 4),
        ("a ? b : c = d", 5),
        ("++ ( T ) a", 2),
        ("sizeof ++ ( T ) a", 3),
        ("sizeof ( T ) x", 4),
        ("sizeof ( T ) [", 4),
        ("sizeof ( T ) (", 4),
        ("sizeof ( T ) ++", 4),
        ("( T ) {", 3),
        ("( a T", 2),
        ("f ( T", 2),
        ("T", 0),
        ("f ( a , )", 4),
        ("f ( , a )", 2),
        ("( int a [ b , c ]", 2),
        ("( int [ b , c ]", 4),
        ("( int ( a", 3),
        ("( int [ * ]", 4),
        ("( int [ static", 3),
        ("( T x )", 2),
        ("sizeof ( T ( x ) )", 4),
        ("sizeof ( T ( * x ) )", 5),
        ("( int ( int , ... , int ) )", 6),
        ("( struct ;", 2),
        ("( struct { }", 3),
        ("( struct { int ; }", 4),
        ("( struct { static", 3),
        ("( static", 1),
        ("( enum { }", 3),
        ("( enum { A , ,", 5),
        ("( enum { A = a = b", 6),
        ("a b", 1),
        ("a )", 1),
        ("a :", 1),
        ("asm", 0),
    ];
    for (text, at) in table {
        let fault = ParseFault::Plain {
            at,
            why: Why::Syntax,
        };
        assert_eq!(&rt; check(rt.alloc(), text)?, Err(fault), "{text}");
    }
    let early: [(&str, usize); 5] = [
        ("a +", 2),
        ("( a", 2),
        ("( T )", 3),
        ("a ? b :", 4),
        ("sizeof (", 2),
    ];
    for (text, at) in early {
        let fault = ParseFault::Plain {
            at,
            why: Why::Syntax,
        };
        assert_eq!(&rt; check(rt.alloc(), text)?, Err(fault), "{text}");
    }
    Ok(())
}

/// What is said of a text that repeats words before and after a middle.
fn nested(
    alloc: Global,
    before: &[u8],
    middle: &[u8],
    after: &[u8],
    times: usize,
) -> Result<Result<(), ParseFault>, Fail> {
    let mut tokens = Vec::new(alloc);
    for _ in 0..times {
        tokens.push(classified(alloc, before)?)?;
    }
    tokens.push(classified(alloc, middle)?)?;
    for _ in 0..times {
        if !after.is_empty() {
            tokens.push(classified(alloc, after)?)?;
        }
    }
    Ok(check_expression(alloc, Limits::of_source(), tokens.as_slice()))
}

#[test]
fn depth_has_a_limit(rt: HostRuntime) -> Result<(), Fail> {
    let alloc = rt.alloc();
    let deep = ParseFault::Plain {
        at: 256,
        why: Why::TooDeep,
    };
    assert_eq!(&rt; nested(alloc, b"(", b"a", b")", 256)?, Ok(()));
    assert_eq!(&rt; nested(alloc, b"(", b"a", b")", 257)?, Err(deep));
    assert_eq!(&rt; nested(alloc, b"-", b"a", b"", 256)?, Ok(()));
    assert_eq!(&rt; nested(alloc, b"-", b"a", b"", 257)?, Err(deep));
    Ok(())
}

#[test]
fn operators_have_a_limit(rt: HostRuntime) -> Result<(), Fail> {
    let alloc = rt.alloc();
    let mut tokens = Vec::new(alloc);
    tokens.push(classified(alloc, b"a")?)?;
    for _ in 0..4_096 {
        tokens.push(classified(alloc, b"-")?)?;
        tokens.push(classified(alloc, b"a")?)?;
    }
    assert_eq!(&rt;
        check_expression(alloc, Limits::of_source(), tokens.as_slice()),
        Ok(())
    );
    tokens.push(classified(alloc, b"-")?)?;
    let fault = ParseFault::Plain {
        at: 8_193,
        why: Why::TooDeep,
    };
    assert_eq!(&rt;
        check_expression(alloc, Limits::of_source(), tokens.as_slice()),
        Err(fault)
    );
    Ok(())
}

#[test]
fn a_typedef_name_may_be_a_type(rt: HostRuntime) -> Result<(), Fail> {
    let alloc = rt.alloc();
    let mut machine = Control::start(alloc);
    assert!(&rt; !machine.takes_type(alloc)?);
    let open = Class::Sign(Punct::LeftParenthesis);
    assert_eq!(&rt; machine.take(Limits::of_printed(), open)?, None);
    assert!(&rt; machine.takes_type(alloc)?);
    assert_eq!(&rt; machine.take(Limits::of_printed(), Class::Marked)?, None);
    assert!(&rt; !machine.takes_type(alloc)?);
    assert!(&rt; !machine.finish());
    Ok(())
}
