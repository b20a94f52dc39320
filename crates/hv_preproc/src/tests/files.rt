//! Included files.
use super::*;

#[test]
fn a_header_is_entered_where_its_line_is_processed(rt: HostRuntime) -> Result<(), Fail> {
    let files = [
        (
            "src/main.c",
            "#ifdef A\n#include \"a.h\"\n#endif\n#include <b.h>\nX Y\n",
        ),
        ("src/a.h", "#define X 1\n#include \"b.h\"\na\n"),
        (
            "inc/b.h",
            "#ifndef Y\n#define Y 2\nb\n#else\nagain\n#endif\n",
        ),
    ];
    assert_left(
        &rt,
        rt.alloc(),
        ONE_OPTION,
        &files,
        &[("A", "b a again 1 2"), ("", "b X 2")],
    )
}

#[test]
fn a_place_has_the_includes_that_led_to_it(rt: HostRuntime) -> Result<(), Fail> {
    let files = [
        ("main.c", "int i;\n#include \"a.h\"\n"),
        ("a.h", " #include \"b.h\"\n"),
        ("b.h", "#if B\n\n/* /"),
    ];
    assert_left(
        &rt,
        rt.alloc(),
        TWO_OPTIONS,
        &files,
        &[("A", "OpenComment at 7 > 1 > 2 : 7")],
    )
}

#[test]
fn built_in_headers_are_there(rt: HostRuntime) -> Result<(), Fail> {
    let files = [(
        "main.c",
        "#include <stddef.h>\n#include <stddef.h>\nNULL;\n",
    )];
    let tokens = "typedef unsigned long size_t ; typedef long ptrdiff_t ; ( ( void * ) 0 ) ;";
    assert_left(&rt, rt.alloc(), NO_OPTION, &files, &[("", tokens)])
}

#[test]
fn a_file_is_read_once_for_all_that_include_it(rt: HostRuntime) -> Result<(), Fail> {
    let files = [
        (
            "main.c",
            "#if A\n#define N 1\n#elif B\n#define N 2\n#endif\n#include \"a.h\"\n",
        ),
        (
            "a.h",
            "#if N == 1\none\n#elif N == 2\ntwo\n#else\nnone\n#endif\n",
        ),
    ];
    assert_left(
        &rt,
        rt.alloc(),
        TWO_OPTIONS,
        &files,
        &[("A,B", "one"), ("A", "one"), ("B", "two"), ("", "none")],
    )
}

#[test]
fn a_guard_counts_where_its_header_was_entered(rt: HostRuntime) -> Result<(), Fail> {
    let files = [
        (
            "main.c",
            "#ifdef A\n#include <g.h>\n#endif\n#ifdef B\n#include <g.h>\n#endif\nend\n",
        ),
        ("inc/g.h", "#ifndef G\n#define G\nonce\n#endif\n"),
    ];
    assert_left(
        &rt,
        rt.alloc(),
        THREE_OPTIONS,
        &files,
        &[
            ("A,B", "once end"),
            ("A,C", "once end"),
            ("B", "once end"),
            ("C", "end"),
        ],
    )
}
