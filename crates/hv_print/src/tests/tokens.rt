//! Tokens by their values: words, constants of each type, each byte in a string.
use super::built::text;
use crate::print_tokens;
use hv_base::{CTok, IntType, Keyword, List, Memory, Punct};
use std::alloc::Global;
use std::test::Fail;

/// Whether the one token is printed so.
fn is_printed(alloc: Global, token: CTok, shown: &str) -> Result<bool, Memory> {
    let mut tokens = List::new(alloc);
    tokens.add(token)?;
    let printed = print_tokens(alloc, tokens.as_slice())?;
    Ok(printed.is_text(shown.as_bytes()))
}

/// A keyword, a punctuator or a name.
fn token(alloc: Global, word: &str) -> Result<CTok, Memory> {
    if let Some(keyword) = Keyword::from_spelling(word.as_bytes()) {
        return Ok(CTok::Keyword(keyword));
    }
    if let Some(punct) = Punct::from_spelling(word.as_bytes()) {
        return Ok(CTok::Punct(punct));
    }
    Ok(CTok::Name(text(alloc, word)?))
}

fn tokens(alloc: Global, words: &[&str]) -> Result<List<CTok>, Memory> {
    let mut tokens = List::new(alloc);
    for word in words {
        tokens.add(token(alloc, word)?)?;
    }
    Ok(tokens)
}

/// Whether the words, as tokens, are printed so.
fn are_printed(alloc: Global, words: &[&str], shown: &str) -> Result<bool, Memory> {
    let tokens = tokens(alloc, words)?;
    let printed = print_tokens(alloc, tokens.as_slice())?;
    Ok(printed.is_text(shown.as_bytes()))
}

#[test]
fn a_line_ends_after_semicolons_and_braces(rt: HostRuntime) -> Result<(), Fail> {
    assert!(rt; are_printed(rt.alloc(), &[], "")?);
    let words = [
        "extern", "int", "hv_opt_A", ";", "int", "main", "(", "void", ")", "{", "f", "(", ")", ";",
        "}",
    ];
    let shown = "extern int hv_opt_A ;\nint main ( void ) {\nf ( ) ;\n}\n";
    assert!(rt; are_printed(rt.alloc(), &words, shown)?);
    Ok(())
}

#[test]
fn constants_are_printed_at_their_limits(rt: HostRuntime) -> Result<(), Fail> {
    // 5.2.4.2.1, for types of 32 and 64 bits
    let rows = [
        (0, IntType::Int, "0 "),
        (2147483647, IntType::Int, "2147483647 "),
        (4294967295, IntType::UInt, "4294967295U "),
        (9223372036854775807, IntType::Long, "9223372036854775807L "),
        (
            18446744073709551615,
            IntType::ULong,
            "18446744073709551615UL ",
        ),
        (
            9223372036854775807,
            IntType::LongLong,
            "9223372036854775807LL ",
        ),
        (
            18446744073709551615,
            IntType::ULongLong,
            "18446744073709551615ULL ",
        ),
    ];
    for (value, kind, shown) in rows {
        let token = CTok::Int { value, kind };
        assert!(rt; is_printed(rt.alloc(), token, shown)?, "{shown}");
    }
    Ok(())
}

#[test]
fn characters_are_printed_by_value(rt: HostRuntime) -> Result<(), Fail> {
    let rows = [
        (-128, "'\\200' "),
        (-1, "'\\377' "),
        (0, "'\\000' "),
        (34, "'\"' "),
        (39, "'\\047' "),
        (65, "'A' "),
        (92, "'\\134' "),
        (126, "'~' "),
        (127, "'\\177' "),
    ];
    for (value, shown) in rows {
        assert!(rt;
            is_printed(rt.alloc(), CTok::Char(value), shown)?,
            "{shown}"
        );
    }
    Ok(())
}

/// The string of the bytes from the first to the last.
fn string(alloc: Global, first: u8, last: u8) -> Result<CTok, Memory> {
    let mut bytes = List::new(alloc);
    for byte in first..=last {
        bytes.add(byte)?;
    }
    Ok(CTok::Str(bytes))
}

#[test]
fn each_byte_of_a_string_is_printed(rt: HostRuntime) -> Result<(), Fail> {
    let rows = [
        (
            0,
            31,
            "\"\\000\\001\\002\\003\\004\\005\\006\\007\\010\\011\\012\\013\\014\\015\
             \\016\\017\\020\\021\\022\\023\\024\\025\\026\\027\\030\\031\\032\\033\\034\
             \\035\\036\\037\" ",
        ),
        (32, 63, "\" !\\042#$%&'()*+,-./0123456789:;<=>?\" "),
        (64, 95, "\"@ABCDEFGHIJKLMNOPQRSTUVWXYZ[\\134]^_\" "),
        (96, 127, "\"`abcdefghijklmnopqrstuvwxyz{|}~\\177\" "),
        (
            128,
            159,
            "\"\\200\\201\\202\\203\\204\\205\\206\\207\\210\\211\\212\\213\\214\\215\
             \\216\\217\\220\\221\\222\\223\\224\\225\\226\\227\\230\\231\\232\\233\\234\
             \\235\\236\\237\" ",
        ),
        (
            160,
            191,
            "\"\\240\\241\\242\\243\\244\\245\\246\\247\\250\\251\\252\\253\\254\\255\
             \\256\\257\\260\\261\\262\\263\\264\\265\\266\\267\\270\\271\\272\\273\\274\
             \\275\\276\\277\" ",
        ),
        (
            192,
            223,
            "\"\\300\\301\\302\\303\\304\\305\\306\\307\\310\\311\\312\\313\\314\\315\
             \\316\\317\\320\\321\\322\\323\\324\\325\\326\\327\\330\\331\\332\\333\\334\
             \\335\\336\\337\" ",
        ),
        (
            224,
            255,
            "\"\\340\\341\\342\\343\\344\\345\\346\\347\\350\\351\\352\\353\\354\\355\
             \\356\\357\\360\\361\\362\\363\\364\\365\\366\\367\\370\\371\\372\\373\\374\
             \\375\\376\\377\" ",
        ),
    ];
    for (first, last, shown) in rows {
        let token = string(rt.alloc(), first, last)?;
        assert!(rt; is_printed(rt.alloc(), token, shown)?, "{first}");
    }
    Ok(())
}
