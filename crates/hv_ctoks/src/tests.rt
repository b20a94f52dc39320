//! Tables of numbers, characters, strings, names and refusals, and every byte in a string.
use super::*;
use hv_base::{CTok, Memory, Span, Text, Why};
use hv_toks::{PpKind, PpTok};
use std::alloc::Global;
use std::test::Fail;

/// A preprocessing token of this kind and spelling.
fn token(alloc: Global, kind: PpKind, text: &[u8]) -> Result<PpTok, Memory> {
    Ok(PpTok {
        kind,
        span: Span {
            file: 0,
            start: 0,
            end: 1,
        },
        text: Text::from_slice(alloc, text)?,
        space: false,
        first: true,
    })
}

/// How what such a token becomes is spelled.
fn respelled(
    alloc: Global,
    kind: PpKind,
    text: &[u8],
    reserved: ReservedNames,
) -> Result<Text, TokenFault> {
    let Ok(token) = token(alloc, kind, text) else {
        return Err(TokenFault::Memory);
    };
    let tok = convert(alloc, &token, reserved)?;
    let mut out = Text::new(alloc);
    match spell(&mut out, &tok) {
        Ok(()) => Ok(out),
        Err(_) => Err(TokenFault::Memory),
    }
}

/// Whether what such a token becomes is spelled so.
fn is_respelled(alloc: Global, kind: PpKind, text: &str, spelled: &str) -> bool {
    match respelled(alloc, kind, text.as_bytes(), ReservedNames::Refused) {
        Ok(out) => out.is_text(spelled.as_bytes()),
        Err(_) => false,
    }
}

/// Whether such a token is refused so.
fn is_refused(alloc: Global, kind: PpKind, text: &str, why: Why) -> bool {
    match respelled(alloc, kind, text.as_bytes(), ReservedNames::Refused) {
        Err(TokenFault::Plain(refusal)) => refusal == why,
        _ => false,
    }
}

#[test]
fn numbers_have_their_values_and_types(rt: HostRuntime) {
    // 6.4.4.1, paragraph 5
    let table = [
        ("0", "0"),
        ("2147483647", "2147483647"),
        ("2147483648", "2147483648L"),
        ("0xffffffff", "4294967295U"),
        ("0x7fffffffffffffff", "9223372036854775807L"),
        ("01777777777777777777777", "18446744073709551615UL"),
        ("4294967295u", "4294967295U"),
        ("4294967296u", "4294967296UL"),
        ("1uLL", "1ULL"),
        ("1lU", "1UL"),
        ("017LL", "15LL"),
        ("0X1Fl", "31L"),
    ];
    for (text, spelled) in table {
        assert!(rt;
            is_respelled(rt.alloc(), PpKind::Number, text, spelled),
            "at {text}"
        );
    }
}

#[test]
fn characters_and_strings_have_their_bytes(rt: HostRuntime) {
    use PpKind::{CharConstant, StringLiteral};
    // 6.4.4.4, 6.4.5
    let table = [
        (CharConstant, "'a'", "'a'"),
        (CharConstant, "'\"'", "'\"'"),
        (CharConstant, "'\\''", "'\\047'"),
        (CharConstant, "'\\\\'", "'\\134'"),
        (CharConstant, "'\\n'", "'\\012'"),
        (CharConstant, "'\\177'", "'\\177'"),
        (CharConstant, "'\\xff'", "'\\377'"),
        (CharConstant, "'\\0'", "'\\000'"),
        (StringLiteral, "\"\"", "\"\""),
        (StringLiteral, "\"a'b\"", "\"a'b\""),
        (StringLiteral, "\"\\\"?\"", "\"\\042?\""),
        (StringLiteral, "\"\\x41g\"", "\"Ag\""),
        (StringLiteral, "\"\\1014\"", "\"A4\""),
        (StringLiteral, "\"\\0\\t\\\\\"", "\"\\000\\011\\134\""),
    ];
    for (kind, text, spelled) in table {
        assert!(rt; is_respelled(rt.alloc(), kind, text, spelled), "at {text}");
    }
}

#[test]
fn words_and_signs_are_spelled_as_they_are(rt: HostRuntime) {
    let names = [
        "_Bool",
        "while",
        "whiles",
        "gotos",
        "h",
        "hv",
        "Hv_x",
        "_hv_",
        "__STDC__",
        "__VA_ARGS__",
    ];
    for text in names {
        assert!(rt;
            is_respelled(rt.alloc(), PpKind::Identifier, text, text),
            "at {text}"
        );
    }
    for text in ["...", "#", "##", ">>=", "~"] {
        assert!(rt;
            is_respelled(rt.alloc(), PpKind::Punctuator, text, text),
            "at {text}"
        );
    }
}

#[test]
fn refusals_have_the_smaller_number(rt: HostRuntime) {
    use PpKind::{CharConstant, HeaderName, Identifier, Number, Other, Punctuator, StringLiteral};
    let table = [
        (Identifier, "goto", Why::LeftOut),
        (Identifier, "_Imaginary", Why::LeftOut),
        (Identifier, "asm", Why::LeftOut),
        (Identifier, "__func__", Why::LeftOut),
        (Identifier, "hv_", Why::Reserved),
        (Identifier, "hv_opt_A", Why::Reserved),
        (Number, "9223372036854775808", Why::BadConstant),
        (Number, "18446744073709551616u", Why::BadConstant),
        (Number, "08", Why::BadConstant),
        (Number, "1lL", Why::BadConstant),
        (Number, "0x", Why::BadConstant),
        (Number, "1.5.2", Why::BadConstant),
        (Number, "0x1.8", Why::BadConstant),
        (Number, "1e", Why::BadConstant),
        (Number, "1f", Why::BadConstant),
        // 6.4.4.2
        (Number, "1e9999", Why::LeftOut),
        (Number, "09.5", Why::LeftOut),
        (Number, ".5e-3f", Why::LeftOut),
        (Number, "1.L", Why::LeftOut),
        (Number, "0x1.8p+3", Why::LeftOut),
        (Number, "0X.fP1", Why::LeftOut),
        (CharConstant, "''", Why::BadConstant),
        (CharConstant, "'ab'", Why::BadConstant),
        (CharConstant, "'\\q'", Why::BadConstant),
        (CharConstant, "'\\400'", Why::BadConstant),
        (CharConstant, "'\\1234'", Why::BadConstant),
        (CharConstant, "L'ab'", Why::BadConstant),
        (CharConstant, "L'a'", Why::LeftOut),
        (StringLiteral, "\"\\q\"", Why::BadConstant),
        (StringLiteral, "\"\\x100\"", Why::BadConstant),
        (StringLiteral, "L\"\\q\"", Why::BadConstant),
        (StringLiteral, "L\"a\"", Why::LeftOut),
        // what `#` makes of a lone backslash or quote
        (StringLiteral, "\"\\\"", Why::Syntax),
        (StringLiteral, "\"\"a\"", Why::Syntax),
        (HeaderName, "<a.h>", Why::Syntax),
        (Punctuator, "<:", Why::Syntax),
        (Other, "@", Why::Syntax),
        (Other, "'a", Why::Syntax),
    ];
    for (kind, text, why) in table {
        assert!(rt; is_refused(rt.alloc(), kind, text, why), "at {text}");
    }
}

/// The C token of a kind and spelling, where names that begin with `hv_` are allowed.
fn allowed(alloc: Global, kind: PpKind, text: &[u8]) -> Result<CTok, TokenFault> {
    let Ok(token) = token(alloc, kind, text) else {
        return Err(TokenFault::Memory);
    };
    convert(alloc, &token, ReservedNames::Allowed)
}

#[test]
fn values_are_those_of_the_spellings(rt: HostRuntime) {
    let name = allowed(rt.alloc(), PpKind::Identifier, b"hv_n_1");
    assert!(rt; matches!(&name, Ok(CTok::Name(text)) if text.is_text(b"hv_n_1")));
    let least = allowed(rt.alloc(), PpKind::CharConstant, b"'\\200'");
    assert!(rt; matches!(&least, Ok(CTok::Char(-128))));
}

#[test]
fn each_byte_in_a_string_is_read_back(rt: HostRuntime) -> Result<(), Fail> {
    let mut bytes = Text::new(rt.alloc());
    for byte in 0..=255u8 {
        bytes.add(byte)?;
    }
    let copy = bytes.copy(rt.alloc())?;
    let mut out = Text::new(rt.alloc());
    spell(&mut out, &CTok::Str(copy))?;
    // two quotes, 93 bytes as themselves, 163 as four bytes
    assert_eq!(rt; out.len(), 747);
    let back = allowed(rt.alloc(), PpKind::StringLiteral, out.as_slice());
    assert!(rt; matches!(&back, Ok(CTok::Str(text)) if text.is_text(bytes.as_slice())));
    Ok(())
}
