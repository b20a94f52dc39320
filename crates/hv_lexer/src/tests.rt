//! Rows of files and their tokens.
use super::*;
use hv_base::Span;
use hv_toks::PpKind;
use std::process::Abort;
use std::test::Fail;

/// A token: its kind, its offsets, its spelling, whether white space stands before it, whether it
/// is the first of its line.
type Row = (PpKind, u64, u64, &'static str, bool, bool);

fn assert_token<R: Abort>(rt: &R, token: &PpTok, row: &Row) {
    let (kind, start, end, text, space, first) = *row;
    assert_eq!(rt; token.kind, kind, "kind of {text}");
    assert_eq!(rt;
        token.span,
        Span {
            file: 7,
            start,
            end
        }
    );
    assert!(rt;
        token.text.as_slice() == text.as_bytes(),
        "spelling of {text}"
    );
    assert_eq!(rt; token.space, space, "space of {text}");
    assert_eq!(rt; token.first, first, "first of {text}");
}

#[test]
fn files_are_cut(rt: HostRuntime) -> Result<(), Fail> {
    use PpKind::{CharConstant, HeaderName, Identifier, Number, Other, Punctuator, StringLiteral};
    let table: [(&str, &[Row]); 13] = [
        ("", &[]),
        (
            "a+++b",
            &[
                (Identifier, 0, 1, "a", false, true),
                (Punctuator, 1, 3, "++", false, false),
                (Punctuator, 3, 4, "+", false, false),
                (Identifier, 4, 5, "b", false, false),
            ],
        ),
        (
            "x/**/y",
            &[
                (Identifier, 0, 1, "x", false, true),
                (Identifier, 5, 6, "y", true, false),
            ],
        ),
        ("'ab\n", &[(Other, 0, 3, "'ab", false, true)]),
        ("\"ab\r\n", &[(Other, 0, 3, "\"ab", false, true)]),
        (
            "i\\\nf\\\r\n(",
            &[
                (Identifier, 0, 4, "if", false, true),
                (Punctuator, 7, 8, "(", false, false),
            ],
        ),
        ("// a\\\nb\n c", &[(Identifier, 9, 10, "c", true, true)]),
        (
            " # include <a//b>\n<a>",
            &[
                (Punctuator, 1, 2, "#", true, true),
                (Identifier, 3, 10, "include", true, false),
                (HeaderName, 11, 17, "<a//b>", true, false),
                (Punctuator, 18, 19, "<", false, true),
                (Identifier, 19, 20, "a", false, false),
                (Punctuator, 20, 21, ">", false, false),
            ],
        ),
        (
            "\"/*\\\"\" L'x' L\"\" '\\q' ''",
            &[
                (StringLiteral, 0, 6, "\"/*\\\"\"", false, true),
                (CharConstant, 7, 11, "L'x'", true, false),
                (StringLiteral, 12, 15, "L\"\"", true, false),
                (CharConstant, 16, 20, "'\\q'", true, false),
                (CharConstant, 21, 23, "''", true, false),
            ],
        ),
        (
            "1.e+5-x .5...",
            &[
                (Number, 0, 5, "1.e+5", false, true),
                (Punctuator, 5, 6, "-", false, false),
                (Identifier, 6, 7, "x", false, false),
                (Number, 8, 13, ".5...", true, false),
            ],
        ),
        (
            "@..>>=",
            &[
                (Other, 0, 1, "@", false, true),
                (Punctuator, 1, 2, ".", false, false),
                (Punctuator, 2, 3, ".", false, false),
                (Punctuator, 3, 6, ">>=", false, false),
            ],
        ),
        (
            "a \r\n\tb\n/**/c",
            &[
                (Identifier, 0, 1, "a", false, true),
                (Identifier, 5, 6, "b", true, true),
                (Identifier, 11, 12, "c", true, true),
            ],
        ),
        (
            "a /* \n */ b",
            &[
                (Identifier, 0, 1, "a", false, true),
                (Identifier, 10, 11, "b", true, false),
            ],
        ),
    ];
    for (text, rows) in table {
        let tokens = lex(rt.alloc(), 7, text.as_bytes())?;
        assert_eq!(rt; tokens.len(), rows.len(), "at {text}");
        for (token, row) in tokens.as_slice().iter().zip(rows) {
            assert_token(&rt, token, row);
        }
    }
    Ok(())
}

#[test]
fn open_comments_are_refused(rt: HostRuntime) {
    let table = [
        ("/*", 0),
        ("a /* *", 2),
        ("\\\n/\\\n*/", 2),
        ("/**/ /*/", 5),
    ];
    for (text, at) in table {
        let offset = match lex(rt.alloc(), 7, text.as_bytes()) {
            Err(LexRefusal::OpenComment { offset }) => Some(offset),
            _ => None,
        };
        assert_eq!(rt; offset, Some(at), "at {text}");
    }
}

/// Whether the spellings of the tokens, with one blank between them, are these.
fn is_spelled(tokens: &[PpTok], spellings: &str) -> bool {
    let mut rest = spellings.split(' ');
    for token in tokens {
        match rest.next() {
            Some(spelling) if token.text.as_slice() == spelling.as_bytes() => {}
            _ => return false,
        }
    }
    rest.next().is_none()
}

#[test]
fn the_examples_of_the_standard_are_cut(rt: HostRuntime) -> Result<(), Fail> {
    // 6.4 paragraphs 5 and 6, 6.4.9 paragraph 3, 6.10.3.5 paragraphs 5 to 7, and splices within
    // tokens of each kind.
    let table = [
        ("1Ex", "1Ex"),
        ("x+++++y", "x ++ ++ + y"),
        ("0x3<1/a.h>1e2", "0x3 < 1 / a . h > 1e2"),
        ("\"a//b\"", "\"a//b\""),
        ("// */", ""),
        ("f = g/**//h;", "f = g / h ;"),
        ("//\\\ni();\nx", "x"),
        ("/\\\n/ j();\nx", "x"),
        ("glue(/,/) k();", "glue ( / , / ) k ( ) ;"),
        ("/*//*/ l();", "l ( ) ;"),
        ("m = n//**/o\n + p;", "m = n + p ;"),
        (
            "g(x+(3,4)-w) | h 5) & m\n\t(f)^m(m);",
            "g ( x + ( 3 , 4 ) - w ) | h 5 ) & m ( f ) ^ m ( m ) ;",
        ),
        (
            "fputs(str(strncmp(\"abc\\0d\", \"abc\", '\\4') // this goes away\n\
            == 0) str(: @\\n), s);",
            "fputs ( str ( strncmp ( \"abc\\0d\" , \"abc\" , '\\4' ) == 0 ) \
            str ( : @ \\ n ) , s ) ;",
        ),
        ("#define hash_hash # ## #", "# define hash_hash # ## #"),
        ("<\\\n<\\\n=", "<<="),
        ("'\\\\\nn'", "'\\n'"),
        ("\"a\\\r\nb\"", "\"ab\""),
        ("1e\\\n+\\\n5", "1e+5"),
        ("a\\ \nb", "a \\ b"),
        ("x'y\nz", "x 'y z"),
        ("$`@", "$ ` @"),
    ];
    for (text, spellings) in table {
        let tokens = lex(rt.alloc(), 0, text.as_bytes())?;
        let fits = if spellings.is_empty() {
            tokens.len() == 0
        } else {
            is_spelled(tokens.as_slice(), spellings)
        };
        assert!(rt; fits, "at {text}");
    }
    Ok(())
}

#[test]
fn a_splice_may_stand_at_every_offset(rt: HostRuntime) -> Result<(), Fail> {
    let text = "ab<<=0x1p+3'c'\"s\"/*c*/.5";
    for splice in ["\\\n", "\\\r\n"] {
        for at in 0..=text.len() {
            let (Some(head), Some(tail)) = (text.as_bytes().get(..at), text.as_bytes().get(at..))
            else {
                return Err(Fail::from("no such offset"));
            };
            let mut bytes = Vec::from_slice(rt.alloc(), head)?;
            bytes.extend_from_slice(splice.as_bytes())?;
            bytes.extend_from_slice(tail)?;
            let tokens = lex(rt.alloc(), 0, bytes.as_slice())?;
            let fits = is_spelled(tokens.as_slice(), "ab <<= 0x1p+3 'c' \"s\" .5");
            assert!(rt; fits, "at {at}");
        }
    }
    Ok(())
}

#[test]
fn each_punctuator_is_one_token(rt: HostRuntime) -> Result<(), Fail> {
    let all = "[ ] ( ) { } . -> ++ -- & * + - ~ ! / % << >> < > <= >= == != ^ | && || ? : ; ... \
        = *= /= %= += -= <<= >>= &= ^= |= , # ##";
    let tokens = lex(rt.alloc(), 0, all.as_bytes())?;
    assert_eq!(rt; tokens.len(), 48);
    assert!(rt; is_spelled(tokens.as_slice(), all));
    for token in tokens.as_slice() {
        assert_eq!(rt; token.kind, PpKind::Punctuator);
    }
    Ok(())
}

#[test]
fn long_files_are_cut_whole(rt: HostRuntime) -> Result<(), Fail> {
    // Longer than 16,384 bytes.
    let line = "int f(void) { return '\\n' + 0x1f; } /* c */\n";
    let mut bytes = Vec::new(rt.alloc());
    for _ in 0..500 {
        bytes.extend_from_slice(line.as_bytes())?;
    }
    assert!(rt; bytes.len() > 16_384);
    let tokens = lex(rt.alloc(), 0, bytes.as_slice())?;
    assert_eq!(rt; tokens.len(), 500 * 12);
    let (Some(first), Some(last)) = (tokens.get(500 * 12 - 12), tokens.get(500 * 12 - 1)) else {
        return Err(Fail::from("a token is missing"));
    };
    assert!(rt; first.first && first.text.as_slice() == b"int".as_slice());
    assert!(rt; !last.first && last.space && last.text.as_slice() == b"}".as_slice());
    Ok(())
}

#[test]
fn whole_tokens_have_a_kind(rt: HostRuntime) {
    use PpKind::{CharConstant, Identifier, Number, Other, Punctuator, StringLiteral};
    let table = [
        ("ab1", Some(Identifier)),
        ("L", Some(Identifier)),
        ("1e+", Some(Number)),
        (".5x", Some(Number)),
        ("L'a'", Some(CharConstant)),
        ("''", Some(CharConstant)),
        ("\"a b\"", Some(StringLiteral)),
        ("##", Some(Punctuator)),
        ("<<=", Some(Punctuator)),
        ("'ab", Some(Other)),
        ("@", Some(Other)),
        ("\\", Some(Other)),
        ("", None),
        (" ", None),
        ("\n", None),
        ("a\\\nb", None),
        ("'a\n", None),
        ("//", None),
        ("/*", None),
        ("/**/", None),
        ("..", None),
        ("a b", None),
        ("+a", None),
        ("<a.h>", None),
        ("=>", None),
    ];
    for (text, kind) in table {
        assert_eq!(rt; whole_token(text.as_bytes()), kind, "at {text}");
    }
}
