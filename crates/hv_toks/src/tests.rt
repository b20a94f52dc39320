//! Each call once, and rows of constants.
ghost use Rattle.std.specs.Prelude.{◌≡◌, ◌⊎◌, All, IfOk};

use super::*;
use hv_base::{Config, List, Memory, Place, Span, Start, Text};
use hv_cond::{Cond, Store};
use std::alloc::{AllocError, Global};
use std::rc::Rc;
use std::test::Fail;

fn start(alloc: Global, index: u64) -> Start {
    Start {
        place: Place {
            stack: List::new(alloc),
            file: 0,
            offset: 0,
        },
        face: 0,
        index,
    }
}

/// Two tokens: a name under the condition, and a semicolon under the other.
fn two_tokens(alloc: Global, named: Cond, always: Cond) -> Result<Stream, AllocError>
    ensures { IfOk result (λ stream. All (λ token. (token.cond ≡ named) ⊎
        (token.cond ≡ always)) stream) }
{
    let Ok(name) = Text::from_slice(alloc, b"x") else {
        return Err(AllocError);
    };
    let mut items = Vec::new(alloc);
    items.push(StreamTok {
        tok: CTok::Name(name),
        cond: named,
        start: start(alloc, 0),
    })?;
    items.push(StreamTok {
        tok: CTok::Punct(Punct::Semicolon),
        cond: always,
        start: start(alloc, 1),
    })?;
    Ok(List::from_vec(items))
}

#[test]
fn a_configuration_keeps_its_tokens(rt: HostRuntime) -> Result<(), Fail> {
    let mut store = Store::new(rt.alloc(), 1)?;
    let named = store.var(0)?;
    let always = store.truth();
    let stream = two_tokens(rt.alloc(), named, always)?;
    for (value, count) in [(true, 2), (false, 1)] {
        let config = Config {
            on: List::from_slice(rt.alloc(), &[value])?,
        };
        let tokens = project(rt.alloc(), &store, &stream, &config)?;
        assert_eq!(rt; tokens.len(), count);
        assert!(rt; matches!(tokens.get(count - 1), Some(CTok::Punct(Punct::Semicolon))));
    }
    Ok(())
}

/// Whether two tokens are of one kind and have one value.
fn is_same(a: &CTok, b: &CTok) -> bool {
    match (a, b) {
        (CTok::Keyword(a), CTok::Keyword(b)) => a == b,
        (CTok::Name(a), CTok::Name(b)) => a == b,
        (CTok::Str(a), CTok::Str(b)) => a == b,
        (CTok::Int { value: a, kind: k }, CTok::Int { value: b, kind: l }) => a == b && k == l,
        (CTok::Char(a), CTok::Char(b)) => a == b,
        (CTok::Punct(a), CTok::Punct(b)) => a == b,
        _ => false,
    }
}

/// A token of each kind.
fn one_of_each(alloc: Global) -> Result<[CTok; 6], AllocError> {
    let (Ok(name), Ok(text)) = (
        Text::from_slice(alloc, b"main"),
        Text::from_slice(alloc, b"a\0b"),
    ) else {
        return Err(AllocError);
    };
    Ok([
        CTok::Keyword(Keyword::While),
        CTok::Name(name),
        CTok::Int {
            value: 7,
            kind: IntType::ULong,
        },
        CTok::Char(-1),
        CTok::Str(text),
        CTok::Punct(Punct::Arrow),
    ])
}

/// A stream of one token under a condition.
fn one_token(alloc: Global, tok: CTok, cond: Cond) -> Result<Stream, AllocError>
    ensures { IfOk result (λ stream. All (λ token. token.cond ≡ cond) stream) }
{
    let mut items = Vec::new(alloc);
    items.push(StreamTok {
        tok,
        cond,
        start: start(alloc, 0),
    })?;
    Ok(List::from_vec(items))
}

#[test]
fn a_token_of_each_kind_is_kept_as_it_is(rt: HostRuntime) -> Result<(), Fail> {
    let store = Store::new(rt.alloc(), 0)?;
    let always = store.truth();
    let config = Config {
        on: List::new(rt.alloc()),
    };
    let expected = one_of_each(rt.alloc())?;
    for (tok, wanted) in one_of_each(rt.alloc())?.into_iter().zip(expected.iter()) {
        let stream = one_token(rt.alloc(), tok, always)?;
        let tokens = project(rt.alloc(), &store, &stream, &config)?;
        assert_eq!(rt; tokens.len(), 1);
        assert!(rt; tokens.get(0).is_some_and(|token| is_same(token, wanted)));
    }
    Ok(())
}

#[test]
fn tokens_are_copied(rt: HostRuntime) -> Result<(), Fail> {
    let token = PpTok {
        kind: PpKind::Number,
        span: Span {
            file: 3,
            start: 4,
            end: 6,
        },
        text: Text::from_slice(rt.alloc(), b"12")?,
        space: true,
        first: false,
    };
    let copy = token.copy(rt.alloc())?;
    assert_eq!(rt;
        (copy.kind, copy.span, copy.space, copy.first),
        (PpKind::Number, token.span, true, false)
    );
    assert!(rt; copy.text == token.text);
    Ok(())
}

#[test]
fn integer_constants_have_the_types_of_the_table(rt: HostRuntime) {
    use IntType::{Int, Long, LongLong, UInt, ULong, ULongLong};
    // 6.4.4.1, paragraph 5
    let table = [
        ("0", Some((0, Int))),
        ("2147483647", Some((2_147_483_647, Int))),
        ("2147483648", Some((2_147_483_648, Long))),
        ("0x7fffffff", Some((2_147_483_647, Int))),
        ("0x80000000", Some((2_147_483_648, UInt))),
        ("037777777777", Some((4_294_967_295, UInt))),
        ("0X100000000", Some((4_294_967_296, Long))),
        ("0x8000000000000000", Some((1 << 63, ULong))),
        ("9223372036854775808", None),
        ("4294967296u", Some((4_294_967_296, ULong))),
        ("1U", Some((1, UInt))),
        ("1l", Some((1, Long))),
        ("1lU", Some((1, ULong))),
        ("1LL", Some((1, LongLong))),
        ("1Ull", Some((1, ULongLong))),
        ("0xffffffffffffffffLL", Some((u64::MAX, ULongLong))),
        ("18446744073709551616u", None),
        ("1lL", None),
        ("1uu", None),
        ("08", None),
        ("0x", None),
        ("1.0", None),
        ("", None),
    ];
    for (text, expected) in table {
        assert_eq!(rt; read_int_constant(text.as_bytes()), expected, "at {text}");
    }
}

#[test]
fn character_constants_have_one_character(rt: HostRuntime) {
    // 6.4.4.4
    let table = [
        ("'a'", Some(97)),
        ("'\"'", Some(34)),
        ("'\\''", Some(39)),
        ("'\\?'", Some(63)),
        ("'\\v'", Some(11)),
        ("'\\0'", Some(0)),
        ("'\\377'", Some(255)),
        ("'\\400'", None),
        ("'\\xff'", Some(255)),
        ("'\\x0041'", Some(65)),
        ("'\\x100'", None),
        ("'\\q'", None),
        ("'ab'", None),
        ("''", None),
        ("L'a'", None),
    ];
    for (text, expected) in table {
        assert_eq!(rt; read_char_constant(text.as_bytes()), expected, "at {text}");
    }
}

/// A function-like macro of one parameter, replaced by one token of this text and place.
fn one_token_body(alloc: Global, param: &str, text: &str, start: u64) -> Result<Body, Memory> {
    let mut params = List::new(alloc);
    params.add(Text::from_slice(alloc, param.as_bytes())?)?;
    let mut body = List::new(alloc);
    body.add(PpTok {
        kind: PpKind::Identifier,
        span: Span {
            file: 0,
            start,
            end: start,
        },
        text: Text::from_slice(alloc, text.as_bytes())?,
        space: false,
        first: false,
    })?;
    Ok(Body::Function {
        params,
        variadic: false,
        body,
    })
}

#[test]
fn meanings_are_the_same_with_equal_places_and_bodies(rt: HostRuntime) -> Result<(), Fail> {
    let alloc = rt.alloc();
    let rows: [(u64, &str, &str, u64, bool); 5] = [
        (1, "p", "x", 5, true),
        (2, "p", "x", 5, false),
        (1, "q", "x", 5, false),
        (1, "p", "y", 5, false),
        (1, "p", "x", 6, false),
    ];
    let place = Place {
        stack: List::new(alloc),
        file: 0,
        offset: 1,
    };
    let first = Meaning::Defined {
        place,
        body: Rc::new(alloc, one_token_body(alloc, "p", "x", 5)?)?,
    };
    assert!(rt; first.copy(alloc)?.same(&first));
    assert!(rt; !first.same(&Meaning::Undefined));
    for (offset, param, text, start, is_same) in rows {
        let place = Place {
            stack: List::new(alloc),
            file: 0,
            offset,
        };
        let body = Rc::new(alloc, one_token_body(alloc, param, text, start)?)?;
        let second = Meaning::Defined { place, body };
        assert_eq!(rt;
            first.same(&second),
            is_same,
            "at {offset} {param} {text} {start}"
        );
    }
    Ok(())
}
