//! `variant`: the tokens that preprocessing leaves in one configuration, or its refusal.
use super::*;

/// Files in memory with these names and texts, of which the reads of these numbers fail.
fn files_of(alloc: Global, texts: &[(&str, &str)], fails: &[u64]) -> Result<MemFiles, Fail> {
    let mut files = MemFiles::new(alloc, List::from_slice(alloc, fails)?);
    for (name, text) in texts {
        files.put(name, Text::from_slice(alloc, text.as_bytes())?)?;
    }
    Ok(files)
}

/// `variant --config K main.c` for this source and the model `m`.
fn variant(alloc: Global, model: &str, config: &str, source: &str) -> Result<Ended, Fail> {
    call(
        alloc,
        &["variant", "--model", "m", "--config", config, "main.c"],
        &mut files_in_memory(alloc, model, source, &[])?,
    )
}

const X_IN_MAIN: &str = "\
int putchar(int);
int x = 65;
int main(void) {
#ifdef A
    int x = 66;
#endif
    putchar(x);
    return 0;
}
";

const A_IS_NEEDED: &str = "\
#ifndef A
#error A is needed
#endif
int main(void) { return 0; }
";

#[test]
fn the_tokens_of_a_configuration_are_written(rt: HostRuntime) -> Result<(), Fail> {
    let table = [
        (
            "A",
            X_IN_MAIN,
            "int putchar ( int ) ;\nint x = 65 ;\nint main ( void ) {\n\
int x = 66 ;\nputchar ( x ) ;\nreturn 0 ;\n}\n",
        ),
        (
            "",
            X_IN_MAIN,
            "int putchar ( int ) ;\nint x = 65 ;\nint main ( void ) {\n\
putchar ( x ) ;\nreturn 0 ;\n}\n",
        ),
        ("A", A_IS_NEEDED, "int main ( void ) {\nreturn 0 ;\n}\n"),
        ("", "", ""),
        // Constants are spelled by value, and adjacent strings are one.
        (
            "A",
            "unsigned u = 0x10u; char c = '\\x41'; char *s = \"a\" \"\\n\";\n",
            "unsigned u = 16U ;\nchar c = 'A' ;\nchar * s = \"a\\012\" ;\n",
        ),
        // An option that is on is the macro `1`.
        ("A", "int a = A;\n", "int a = 1 ;\n"),
        ("", "int a = A;\n", "int a = A ;\n"),
    ];
    for (config, source, out) in table {
        let ended = variant(rt.alloc(), MODEL_A, config, source)?;
        assert_ended(&rt, &ended, 0, out, "");
    }
    Ok(())
}

#[test]
fn the_first_refusal_of_a_configuration_is_said(rt: HostRuntime) -> Result<(), Fail> {
    let table = [
        (
            "option A\n",
            "",
            A_IS_NEEDED,
            "config= file=main.c line=2 offset=10 via=- why=5 ErrorDirective",
        ),
        // The names stand in the model's order.
        (
            "option Z\noption A\n",
            "A,Z",
            "int x;\n#if 1 / 0\n#endif\n",
            "config=Z,A file=main.c line=2 offset=7 via=- why=4 BadCondition",
        ),
        (
            "option A\n",
            "A",
            "#ifdef A\nint hv_x;\n#endif\n",
            "config=A file=main.c line=2 offset=13 via=- why=22 Reserved",
        ),
        (
            "option A\n",
            "A",
            "int main(void) { return 0; }\n/* open",
            "config=A file=main.c line=2 offset=29 via=- why=1 OpenComment",
        ),
        (
            "option A\n",
            "",
            "#include \"b.h\"\n",
            "config= file=main.c line=1 offset=0 via=- why=6 NoFile",
        ),
    ];
    for (model, config, source, refusal) in table {
        let message = format!(in rt.alloc(); "hercules: fails {refusal}\n")?;
        let ended = variant(rt.alloc(), model, config, source)?;
        assert_ended(&rt, &ended, 1, "", message.as_str());
    }
    Ok(())
}

/// Each part stands in a header of its own.
const NESTED: [(&str, &str); 3] = [
    ("main.c", "int a;\n#include \"d/h.h\"\n"),
    ("d/h.h", "\n#include \"i.h\"\n"),
    ("d/i.h", "int b;\n\n  #error no\n"),
];

const IN_A_BUILT_IN_HEADER: [(&str, &str); 1] = [(
    "main.c",
    "#define putchar hv_x\n#include <stdio.h>\n",
)];

const ITSELF: [(&str, &str); 1] = [(
    "main.c",
    "#include \"main.c\"\nint main(void) { return 0; }\n",
)];

const SIXTY_FOUR_ZEROS: &str = "0,0,0,0,0,0,0,0,0,0,0,0,0,0,0,0,\
0,0,0,0,0,0,0,0,0,0,0,0,0,0,0,0,\
0,0,0,0,0,0,0,0,0,0,0,0,0,0,0,0,\
0,0,0,0,0,0,0,0,0,0,0,0,0,0,0,0";

#[test]
fn the_way_to_a_refusal_is_said(rt: HostRuntime) -> Result<(), Fail> {
    let itself = format!(in rt.alloc();
        "main.c line=1 offset=0 via={SIXTY_FOUR_ZEROS} why=7 IncludeTooDeep"
    )?;
    let table: [(&[(&str, &str)], &str); 3] = [
        (
            &NESTED,
            "d/i.h line=3 offset=10 via=7,1 why=5 ErrorDirective",
        ),
        (
            &IN_A_BUILT_IN_HEADER,
            "<stdio.h> line=5 offset=79 via=21 why=22 Reserved",
        ),
        (&ITSELF, itself.as_str()),
    ];
    for (texts, refusal) in table {
        let message = format!(in rt.alloc(); "hercules: fails config= file={refusal}\n")?;
        let mut files = files_of(rt.alloc(), texts, &[])?;
        let ended = call(rt.alloc(), &["variant", "main.c"], &mut files)?;
        assert_ended(&rt, &ended, 1, "", message.as_str());
    }
    Ok(())
}

const IN_TWO_FOLDERS: [(&str, &str); 4] = [
    ("main.c", "#include <h.h>\n#include <g.h>\n"),
    ("d/h.h", "int d;\n"),
    ("e/h.h", "int e;\n"),
    ("e/g.h", "int g;\n"),
];

const WITH_STDIO: [(&str, &str); 1] = [(
    "main.c",
    "#include <stdio.h>\nint main(void) { return EOF; }\n",
)];

#[test]
fn headers_are_read(rt: HostRuntime) -> Result<(), Fail> {
    let table: [(&[(&str, &str)], &str, &str); 3] = [
        (&IN_TWO_FOLDERS, "-Id:e", "int d ;\nint g ;\n"),
        (&IN_TWO_FOLDERS, "-Ie:d", "int e ;\nint g ;\n"),
        (
            &WITH_STDIO,
            "-Id",
            "typedef unsigned long size_t ;\n\
typedef long ptrdiff_t ;\n\
int putchar ( int ) ;\n\
int getchar ( void ) ;\n\
int puts ( const char * ) ;\n\
int printf ( const char * , ... ) ;\n\
int main ( void ) {\n\
return ( - 1 ) ;\n\
}\n",
        ),
    ];
    for (texts, folders, out) in table {
        let mut files = files_of(rt.alloc(), texts, &[])?;
        let ended = call(rt.alloc(), &["variant", folders, "main.c"], &mut files)?;
        assert_ended(&rt, &ended, 0, out, "");
    }
    Ok(())
}

const BAD_MODEL: &str = "option A\nrule\n";

/// A header in a group that no configuration has, and a refusal of the source.
const HEADER_LEFT_OUT: &str = "#if 0\n#include \"h.h\"\n#endif\n#error no\n";

#[test]
fn files_come_before_the_model_and_the_configuration(rt: HostRuntime) -> Result<(), Fail> {
    let table: [(&[&str], &[u64], u8, &str); 7] = [
        (&["variant", "--model=n", "main.c"], &[], 3, "no file n"),
        (&["variant", "--model=m", "n.c"], &[], 3, "no file n.c"),
        (
            &["variant", "--model=m", "main.c"],
            &[1],
            3,
            "cannot read m",
        ),
        (
            &["variant", "--model=m", "main.c"],
            &[2],
            3,
            "cannot read main.c",
        ),
        (
            &["variant", "--model=m", "main.c"],
            &[3],
            3,
            "cannot read h.h",
        ),
        (
            &["variant", "--model=m", "--config=Z", "main.c"],
            &[],
            7,
            "model line=2 kind=1 BadLine",
        ),
        (&["variant", "--config=Z", "main.c"], &[], 2, "bad config"),
    ];
    for (texts, fails, status, fault) in table {
        let message = format!(in rt.alloc(); "hercules: {fault}\n")?;
        let mut files = files_of(
            rt.alloc(),
            &[("m", BAD_MODEL), ("main.c", HEADER_LEFT_OUT), ("h.h", "")],
            fails,
        )?;
        let ended = call(rt.alloc(), texts, &mut files)?;
        assert_ended(&rt, &ended, status, "", message.as_str());
    }
    Ok(())
}

#[test]
fn only_valid_configurations_have_variants(rt: HostRuntime) -> Result<(), Fail> {
    for config in ["", "B", "A,A"] {
        let ended = variant(rt.alloc(), "option A\nrule A\n", config, A_IS_NEEDED)?;
        assert_ended(&rt, &ended, 2, "", "hercules: bad config\n");
    }
    Ok(())
}
