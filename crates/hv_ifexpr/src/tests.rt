//! Rows of expressions, and their truth.
use super::*;
use hv_base::{Span, Text};
use hv_toks::{PpKind, PpTok};
use std::alloc::Global;
use std::test::Fail;

/// The kind of a token of the rows below, by its first byte.
fn kind_of(text: &[u8]) -> PpKind {
    match text {
        [b'0'..=b'9', ..] => PpKind::Number,
        [b'A'..=b'Z' | b'a'..=b'z' | b'_', .., b'\''] => PpKind::CharConstant,
        [b'A'..=b'Z' | b'a'..=b'z' | b'_', ..] => PpKind::Identifier,
        [b'\'', ..] => PpKind::CharConstant,
        [b'"', ..] => PpKind::StringLiteral,
        [b'@', ..] => PpKind::Other,
        _ => PpKind::Punctuator,
    }
}

fn token(alloc: Global, text: &[u8]) -> Result<PpTok, Fail> {
    Ok(PpTok {
        kind: kind_of(text),
        span: Span {
            file: 0,
            start: 0,
            end: 0,
        },
        text: Text::from_slice(alloc, text)?,
        space: true,
        first: false,
    })
}

/// The truth of the tokens between the blanks of a text.
fn truth_of(alloc: Global, text: &str) -> Result<Result<bool, IfFault>, Fail> {
    let mut tokens = Vec::new(alloc);
    for part in text.as_bytes().split(|byte| *byte == b' ') {
        tokens.push(token(alloc, part)?)?;
    }
    Ok(evaluate(alloc, tokens.as_slice()))
}

#[test]
fn expressions_are_true(rt: HostRuntime) -> Result<(), Fail> {
    let table: [&str; 44] = [
        "1 || 1 / 0",
        "- 1 > 0u",
        "1 - 1 - 1 == - 1",
        "8 / 4 / 2 == 1",
        "1 + 2 * 3 == 7",
        "( 1 + 2 ) * 3 == 9",
        "- 7 / 2 == - 3",
        "- 7 % 2 == - 1",
        "1 << 2 + 1 == 8",
        "- 1 >> 63 == - 1",
        "- 1ul >> 63 == 1",
        "1 | 2 == 3",
        "( 6 & 3 ^ 1 | 8 ) == 11",
        "1 || 0 && 0",
        "0 == 0 > 1",
        "! 0 && ! ! 2 && ~ 0 == - 1",
        "0 ? 1 / 0 : 2",
        "1 ? 2 : 1 / 0",
        "0 ? 1 : 0 ? 2 : 3",
        "1 ? 0 ? 0 : 5 : 0",
        "( 1 ? - 1 : 0u ) > 0",
        "( 1 ? - 1 : ( 1 / 0u ) ) > 0",
        "( 1 || 0u ) - 2 < 0",
        "( 0u < 1u ) - 2 < 0",
        "! 0u - 2 < 0",
        "! ( 0 && 1 / 0 )",
        "0x7fffffffffffffff + 1 < 0",
        "( - 0x7fffffffffffffff - 1 ) / - 1 < 0",
        "( - 0x7fffffffffffffff - 1 ) % - 1 == 0",
        "0xffffffffffffffff > 0",
        "01777777777777777777777 > 0",
        "18446744073709551615u > 0",
        "0xffffffff + 1 == 4294967296",
        "- 0xffffffff < 0",
        "0XfUl == 15 && 017LLu == 15 && 0 == 00 && 10ll == 012l",
        "'a' == 97 && '\\n' == 10 && '\\0' == 0 && '\\'' == 39",
        "'\\377' == - 1 && '\\x80' == - 128 && '\\x007f' == 127",
        "x == 0 && ! y",
        "- - 1 == 1",
        "~ - 1 == 0",
        "1 << 63 < 0",
        "- 1 << 1 == - 2",
        "5 >= 5 && 5 <= 5 && 5 != 4",
        "( ( ( ( 1 ) ) ) )",
    ];
    for text in table {
        assert_eq!(&rt; truth_of(rt.alloc(), text)?, Ok(true), "{text}");
    }
    Ok(())
}

#[test]
fn expressions_are_false(rt: HostRuntime) -> Result<(), Fail> {
    let table: [&str; 8] = [
        "0",
        "x",
        "- 1 > 0",
        "0 && 1 / 0",
        "0 && 1 << 64",
        "1 ? 0 : 1",
        "'\\0'",
        "1 == 2 == 3",
    ];
    for text in table {
        assert_eq!(&rt; truth_of(rt.alloc(), text)?, Ok(false), "{text}");
    }
    Ok(())
}

#[test]
fn no_expressions_or_no_values(rt: HostRuntime) -> Result<(), Fail> {
    let table: [&str; 42] = [
        "1 / 0",
        "1 << 64",
        "1 << - 1",
        "1 >> 64",
        "1 % 0u",
        "0 || 1 / 0",
        "1 && 1 % 0",
        "1 ? 1 / 0 : 1",
        "1 / 0 ? 1 : 1",
        "1 + 1 / 0",
        "1 +",
        "+",
        "( 1",
        "1 )",
        "( )",
        "1 2",
        "1 ? 2",
        "1 : 2",
        "1 ? : 2",
        "( 1 ? 2 ) : 3",
        "1 , 2",
        "x = 1",
        "x ++",
        "defined",
        "0 && defined",
        "defined ( x )",
        "& x",
        "* x",
        "9223372036854775808",
        "18446744073709551616u",
        "08",
        "0x",
        "0b1",
        "1uu",
        "1lL",
        "1.0",
        "L'a'",
        "'ab'",
        "'\\q'",
        "'\\x100'",
        "\"a\"",
        "@",
    ];
    for text in table {
        assert_eq!(&rt; truth_of(rt.alloc(), text)?, Err(IfFault::Bad), "{text}");
    }
    assert_eq!(&rt; evaluate(rt.alloc(), &[]), Err(IfFault::Bad));
    Ok(())
}

#[test]
fn nesting_is_free(rt: HostRuntime) -> Result<(), Fail> {
    let alloc = rt.alloc();
    let mut tokens = Vec::new(alloc);
    for _ in 0..10_000 {
        tokens.push(token(alloc, b"(")?)?;
        tokens.push(token(alloc, b"!")?)?;
    }
    tokens.push(token(alloc, b"7")?)?;
    for _ in 0..10_000 {
        tokens.push(token(alloc, b")")?)?;
    }
    for _ in 0..40_000 {
        tokens.push(token(alloc, b"-")?)?;
        tokens.push(token(alloc, b"0")?)?;
    }
    assert_eq!(&rt; evaluate(alloc, tokens.as_slice()), Ok(true));
    Ok(())
}
