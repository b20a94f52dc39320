//! A small file piece by piece, and tables of directives and of lines that are well-formed or not.
use super::*;
use hv_base::{List, Memory, Text};
use hv_lexer::{LexRefusal, lex};
use hv_plain::RunEnd;
use hv_toks::{Body, PpTok};
use std::alloc::Global;
use std::test::Fail;

/// The tokens of a source; none where a comment isn't closed.
fn tokens_of(alloc: Global, source: &str) -> Result<List<PpTok>, Memory> {
    match lex(alloc, 0, source.as_bytes()) {
        Ok(tokens) => Ok(tokens),
        Err(LexRefusal::OpenComment { .. }) => Ok(List::new(alloc)),
        Err(LexRefusal::Memory) => Err(Memory),
    }
}

/// The tokens after the `#` and the name of a directive.
fn after_name(tokens: &[PpTok]) -> &[PpTok] {
    match tokens {
        [_, _, line @ ..] => line,
        _ => &[],
    }
}

/// Writes each token after a space.
fn write_tokens(out: &mut Text, tokens: &[PpTok]) -> Result<(), Memory> {
    for token in tokens {
        out.add(b' ')?;
        out.extend_from_slice(token.text.as_slice())?;
    }
    Ok(())
}

/// The pieces of a source: a text after `text`, with what ends it, and a directive after `line`.
fn shown_pieces(alloc: Global, source: &str) -> Result<Text, Memory> {
    let tokens = tokens_of(alloc, source)?;
    let mut out = Text::new(alloc);
    let pieces = pieces(alloc, tokens.as_slice())?;
    for piece in pieces.iter() {
        match piece {
            Piece::Text { run, ends } => {
                out.extend_from_slice(b"text")?;
                write_tokens(&mut out, run)?;
                out.extend_from_slice(match ends {
                    RunEnd::Directive => b" |\n".as_slice(),
                    RunEnd::FileEnd => b" .\n".as_slice(),
                    RunEnd::Line => b" ?\n".as_slice(),
                })?;
            }
            Piece::Directive { line, .. } => {
                out.extend_from_slice(b"line")?;
                write_tokens(&mut out, line)?;
                out.add(b'\n')?;
            }
        }
    }
    Ok(out)
}

#[test]
fn a_file_is_cut_into_texts_and_directives(rt: HostRuntime) -> Result<(), Fail> {
    let source = "\
int a;
int # b;
#
#define X \\
 1
c
  /* */ # if X
# endif
d
e";
    let shown = "\
text int a ; int # b ; |
line
line define X 1
text c |
line if X
line endif
text d e .
";
    let found = shown_pieces(rt.alloc(), source)?;
    assert!(rt; found.is_text(shown.as_bytes()));
    assert!(rt; shown_pieces(rt.alloc(), "")?.is_empty());
    Ok(())
}

/// The name of a directive, and how many tokens it has.
fn told(directive: Directive<'_>) -> (&'static str, usize) {
    match directive {
        Directive::Conditional(Conditional::If(question)) => match question {
            Question::Expression(line) => ("if", line.len()),
            Question::IsMacro(line) => ("ifdef", line.len()),
            Question::IsNoMacro(line) => ("ifndef", line.len()),
        },
        Directive::Conditional(Conditional::Elif(line)) => ("elif", line.len()),
        Directive::Conditional(Conditional::Else) => ("else", 0),
        Directive::Conditional(Conditional::Endif) => ("endif", 0),
        Directive::Action(Action::Include(line)) => ("include", line.len()),
        Directive::Action(Action::Define(line)) => ("define", line.len()),
        Directive::Action(Action::Undef(line)) => ("undef", line.len()),
        Directive::Action(Action::Error) => ("error", 0),
        Directive::Action(Action::Ignored) => ("ignored", 0),
        Directive::Action(Action::Unknown) => ("unknown", 0),
    }
}

#[test]
fn a_directive_goes_by_its_name(rt: HostRuntime) -> Result<(), Fail> {
    // 6.10, paragraph 1
    let table = [
        ("", "ignored", 0),
        ("if A > 1", "if", 3),
        ("ifdef A", "ifdef", 1),
        ("ifndef A", "ifndef", 1),
        ("elif A", "elif", 1),
        ("else A", "else", 0),
        ("endif A", "endif", 0),
        ("include \"a.h\"", "include", 1),
        ("define A 1", "define", 2),
        ("undef A", "undef", 1),
        ("error A", "error", 0),
        ("pragma A", "ignored", 0),
        ("line 7", "unknown", 0),
        ("If A", "unknown", 0),
    ];
    for (line, name, count) in table {
        let tokens = tokens_of(rt.alloc(), line)?;
        let (found, len) = told(directive_on(tokens.as_slice()));
        assert!(rt; found == name && len == count, "at {line}");
    }
    Ok(())
}

/// The definition of a `#define` line, with its parameters between parentheses; `-` where the line
/// isn't well-formed.
fn shown_definition(alloc: Global, source: &str) -> Result<Text, Memory> {
    let tokens = tokens_of(alloc, source)?;
    let mut out = Text::new(alloc);
    let Some(Definition { name, body }) = definition_on(alloc, after_name(tokens.as_slice()))?
    else {
        out.add(b'-')?;
        return Ok(out);
    };
    out.extend_from_slice(name.as_slice())?;
    match body {
        Body::Object { body } => {
            out.extend_from_slice(b" =")?;
            write_tokens(&mut out, body.as_slice())?;
        }
        Body::Function {
            params,
            variadic,
            body,
        } => {
            out.extend_from_slice(b" (")?;
            for name in params.as_slice() {
                out.add(b' ')?;
                out.extend_from_slice(name.as_slice())?;
            }
            out.extend_from_slice(if variadic {
                b" ... ) =".as_slice()
            } else {
                b" ) =".as_slice()
            })?;
            write_tokens(&mut out, body.as_slice())?;
        }
    }
    Ok(out)
}

#[test]
fn a_definition_is_what_its_line_says(rt: HostRuntime) -> Result<(), Fail> {
    // 6.10.3.5, paragraphs 6 and 8; 6.10.3.3, paragraph 4; 6.10.3, paragraph 10
    let table = [
        ("#define OBJ_LIKE (1-1)", "OBJ_LIKE = ( 1 - 1 )"),
        ("#define FUNC_LIKE(a) ( a )", "FUNC_LIKE ( a ) = ( a )"),
        ("#define hash_hash # ## #", "hash_hash = # ## #"),
        ("#define mkstr(a) # a", "mkstr ( a ) = # a"),
        (
            "#define in_between(a) mkstr(a)",
            "in_between ( a ) = mkstr ( a )",
        ),
        ("#define t(x,y,z) x ## y ## z", "t ( x y z ) = x ## y ## z"),
        (
            "#define show(...) puts(#__VA_ARGS__)",
            "show ( ... ) = puts ( # __VA_ARGS__ )",
        ),
        (
            "#define report(test, ...) test",
            "report ( test ... ) = test",
        ),
        ("#define EMPTY", "EMPTY ="),
        ("#define NONE()", "NONE ( ) ="),
        ("#define WIDE+", "WIDE = +"),
        ("#define", "-"),
        ("#define 1 2", "-"),
        ("#define defined 1", "-"),
        ("#define __STDC__ 2", "-"),
        ("#define F(a", "-"),
        ("#define F(a,) a", "-"),
        ("#define F(a b) a", "-"),
        ("#define F(..., a) a", "-"),
        ("#define F(1) a", "-"),
        ("#define F(a, b, a) b", "-"),
        ("#define F(__VA_ARGS__) 1", "-"),
        ("#define F(a) __VA_ARGS__", "-"),
        ("#define F __VA_ARGS__", "-"),
        ("#define F(a) #b", "-"),
        ("#define F(a) a #", "-"),
        ("#define F(a) ## a", "-"),
        ("#define F a ##", "-"),
    ];
    for (line, shown) in table {
        let found = shown_definition(rt.alloc(), line)?;
        assert!(rt; found.is_text(shown.as_bytes()), "at {line}");
    }
    Ok(())
}

#[test]
fn names_of_undef_and_include_lines(rt: HostRuntime) -> Result<(), Fail> {
    // 6.10.8, paragraph 4; 6.10.2
    let table = [
        ("#undef A B", "A"),
        ("#undef __VA_ARGS__", "-"),
        ("#undef __STDC_VERSION__", "-"),
        ("#undef 1", "-"),
        ("#undef", "-"),
    ];
    for (line, name) in table {
        let tokens = tokens_of(rt.alloc(), line)?;
        let found = undefined_name(after_name(tokens.as_slice())).unwrap_or(b"-");
        assert!(rt; found == name.as_bytes(), "at {line}");
    }
    let table = [
        ("#include \"a/b.h\" c", "a/b.h", true),
        ("#include <stdio.h>", "stdio.h", false),
        ("#include A", "-", false),
        ("#include", "-", false),
    ];
    for (line, name, quoted) in table {
        let tokens = tokens_of(rt.alloc(), line)?;
        let none = Header {
            quoted: false,
            name: "-",
        };
        let found = header_on(after_name(tokens.as_slice())).unwrap_or(none);
        assert!(rt; found.name == name && found.quoted == quoted, "at {line}");
    }
    Ok(())
}
