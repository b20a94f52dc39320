//! The examples of the standard (ISO/IEC 9899:1999, 6.10.3.5), refusals, and `defined` on
//! controlling lines.
mod episodes;

use episodes::{assert_expands, assert_refuses};
use hv_base::Why;
use hv_plain::RunEnd;
use std::test::Fail;

/// The macros of the third example of 6.10.3.5.
const REEXAMINED: [&str; 12] = [
    "x 2",
    "f(a) f(x * (a))",
    "g f",
    "z z[0]",
    "h g(~",
    "m(a) a(w)",
    "w 0,1",
    "t(a) a",
    "p() int",
    "q(x) x",
    "r(x,y) x ## y",
    "str(x) # x",
];

/// The macros of the fourth example, and that of the fifth.
const STRINGS: [&str; 9] = [
    "str(s) # s",
    "xstr(s) str(s)",
    "debug(s,t) printf(\"x\" # s \"= %d, x\" # t \"= %s\", x ## s, x ## t)",
    "INCFILE(n) vers ## n",
    "glue(a,b) a ## b",
    "xglue(a,b) glue(a, b)",
    "HIGHLOW \"hello\"",
    "LOW LOW \", world\"",
    "t(x,y,z) x ## y ## z",
];

#[test]
fn reexamined_text(rt: HostRuntime) -> Result<(), Fail> {
    assert_expands(
        &rt,
        rt.alloc(),
        &REEXAMINED,
        RunEnd::FileEnd,
        &[
            (
                "f(y+1) + f(f(z)) % t(t(g)(0) + t)(1);",
                "f(2 * (y+1)) + f(2 * (f(2 * (z[0])))) % f(2 * (0)) + t(1);",
            ),
            (
                "g(x+(3,4)-w) | h 5) & m\n(f)^m(m);",
                "f(2 * (2+(3,4)-0,1)) | f(2 * (~ 5)) & f(2 * (0,1))^m(0,1);",
            ),
            (
                "p() i[q()] = { q(1), r(2,3), r(4,), r(,5), r(,) };",
                "int i[] = { 1, 23, 4, 5, };",
            ),
            (
                "char c[2][6] = { str(hello), str() };",
                "char c[2][6] = { \"hello\", \"\" };",
            ),
        ],
    )
}

#[test]
fn strings_and_pasted_tokens(rt: HostRuntime) -> Result<(), Fail> {
    assert_expands(
        &rt,
        rt.alloc(),
        &STRINGS,
        RunEnd::FileEnd,
        &[
            (
                "debug(1, 2);",
                "printf(\"x\" \"1\" \"= %d, x\" \"2\" \"= %s\", x1, x2);",
            ),
            (
                "fputs(str(strncmp(\"abc\\0d\", \"abc\", '\\4') // this goes away\n\
                 == 0) str(: @\\n), s);",
                "fputs(\"strncmp(\\\"abc\\\\0d\\\", \\\"abc\\\", '\\\\4') == 0\" \": @\\n\", s);",
            ),
            ("xstr(INCFILE(2).h)", "\"vers2.h\""),
            ("glue(HIGH, LOW);", "\"hello\";"),
            ("xglue(HIGH, LOW)", "\"hello\" \", world\""),
            (
                "t(1,2,3), t(,4,5), t(6,,7), t(8,9,), t(10,,), t(,11,), t(,,12), t(,,)",
                "123, 45, 67, 89, 10, 11, 12,",
            ),
        ],
    )
}

#[test]
fn variable_arguments(rt: HostRuntime) -> Result<(), Fail> {
    assert_expands(
        &rt,
        rt.alloc(),
        &[
            "debug(...) fprintf(stderr, __VA_ARGS__)",
            "showlist(...) puts(#__VA_ARGS__)",
            "report(test,...) ((test)?puts(#test):printf(__VA_ARGS__))",
        ],
        RunEnd::FileEnd,
        &[
            (
                "debug(\"X = %d\\n\", x);",
                "fprintf(stderr, \"X = %d\\n\", x );",
            ),
            (
                "showlist(The first, second, and third items.);",
                "puts( \"The first, second, and third items.\" );",
            ),
            (
                "report(x>y, \"x is %d but y is %d\", x, y);",
                "((x>y)?puts(\"x>y\"): printf(\"x is %d but y is %d\", x, y));",
            ),
        ],
    )
}

#[test]
fn refusals(rt: HostRuntime) -> Result<(), Fail> {
    assert_refuses(
        &rt,
        rt.alloc(),
        &STRINGS,
        &[
            (RunEnd::Directive, "debug(1)", Why::BadInvocation),
            (RunEnd::Directive, "glue(+, x)", Why::BadPaste),
            (RunEnd::Directive, "glue(1, ", Why::DirectiveInArguments),
            (RunEnd::Directive, "glue", Why::DirectiveInArguments),
            (RunEnd::Directive, "xstr(glue(1)", Why::DirectiveInArguments),
            (RunEnd::Directive, "xstr(glue(1))", Why::BadInvocation),
            (RunEnd::FileEnd, "glue(1, ", Why::BadInvocation),
        ],
    )
}

#[test]
fn controlling_lines(rt: HostRuntime) -> Result<(), Fail> {
    assert_expands(
        &rt,
        rt.alloc(),
        &[
            "A defined B",
            "drop(x) 7",
            "str(x) # x",
            "pair(x,y) x ## y",
            "two(x) x x",
            "n01 yes",
        ],
        RunEnd::Line,
        &[
            ("defined A && !defined(B)", "1 && !0"),
            ("drop(defined A)", "7"),
            ("str(defined A || defined ( B ))", "\"1 || 0\""),
            ("pair(defined A, defined B)", "10"),
            ("pair(n, pair(defined B, defined A))", "npair(0, 1)"),
            ("two(defined A) A", "1 1 defined B"),
            ("pair(n0, defined A)", "yes"),
            ("defined(A", "defined(defined B"),
        ],
    )
}
