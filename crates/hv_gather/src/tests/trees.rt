//! Trees of files with the bundle that they give: the names in the order in which they are asked
//! for, and which of them are absent. The main file is the first of the tree.
use super::*;

/// The bundle of a tree has these names, from files that are read and as the search is defined.
fn assert_bundle<R: Abort + AllocGlobal>(
    rt: &R,
    tree: &str,
    dirs: &str,
    names: &str,
) -> Result<(), Fail> {
    let alloc = rt.alloc();
    let files = tree_of(alloc, tree)?;
    // Before the first file there is nothing.
    let Some(main) = files.get(1) else {
        return Err("a tree without a main file".into());
    };
    let dirs = words_of(alloc, dirs)?;
    let mut read = files_of(alloc, files.as_slice(), &[])?;
    let answer = gather(alloc, &mut read, main.name.as_str(), dirs.as_slice());
    assert_eq!(rt; answer_shown(alloc, &answer)?.as_str(), names, "at {tree}");
    let all = bundle_of(alloc, files.as_slice())?;
    let plain = gather_plainly(alloc, &all, main.name.as_str(), dirs.as_slice())?;
    assert_eq!(rt;
        shown(alloc, &plain)?.as_str(),
        names,
        "as defined, at {tree}"
    );
    Ok(())
}

#[test]
fn a_header_is_looked_for_in_the_files_folder_then_in_each_include_folder(
    rt: HostRuntime,
) -> Result<(), Fail> {
    let table = [
        (
            "\
== m.c
",
            "inc",
            "m.c",
        ),
        (
            "\
== m.c
#include \"a.h\"
== a.h
== inc/a.h
",
            "inc",
            "m.c a.h",
        ),
        (
            "\
== m.c
#include <a.h>
== a.h
== inc/a.h
",
            "inc",
            "m.c inc/a.h",
        ),
        (
            "\
== m.c
#include \"a.h\"
== lib/a.h
",
            "inc lib",
            "m.c -a.h -inc/a.h lib/a.h",
        ),
        (
            "\
== m.c
#include \"a.h\"
",
            "inc lib",
            "m.c -a.h -inc/a.h -lib/a.h",
        ),
        (
            "\
== m.c
#include <a.h>
== a.h
",
            "",
            "m.c",
        ),
        (
            "\
== src/m.c
#include \"x/a.h\"
== src/x/a.h
#include \"b.h\"
== src/x/b.h
== b.h
",
            "",
            "src/m.c src/x/a.h src/x/b.h",
        ),
        (
            "\
== src/m.c
#include \"../a.h\"
#include \"./b.h\"
== a.h
== src/./b.h
",
            "",
            "src/m.c -src/../a.h src/./b.h",
        ),
    ];
    for (tree, dirs, names) in table {
        assert_bundle(&rt, tree, dirs, names)?;
    }
    Ok(())
}

#[test]
fn a_name_that_begins_with_a_slash_is_its_one_candidate(rt: HostRuntime) -> Result<(), Fail> {
    let table = [
        (
            "\
== m.c
#include \"/a.h\"
#include </b.h>
== /a.h
== inc//b.h
",
            "inc",
            "m.c /a.h -/b.h",
        ),
        (
            "\
== /m.c
#include \"a.h\"
== /a.h
",
            "",
            "/m.c /a.h",
        ),
    ];
    for (tree, dirs, names) in table {
        assert_bundle(&rt, tree, dirs, names)?;
    }
    Ok(())
}

#[test]
fn a_name_is_asked_for_once(rt: HostRuntime) -> Result<(), Fail> {
    let table = [
        // A file that mentions itself, and two that mention each other.
        (
            "\
== m.c
#include \"m.c\"
",
            "",
            "m.c",
        ),
        (
            "\
== m.c
#include \"a.h\"
== a.h
#include \"b.h\"
== b.h
#include \"a.h\"
#include \"m.c\"
",
            "",
            "m.c a.h b.h",
        ),
        (
            "\
== m.c
#include \"a.h\"
#include \"a.h\"
#include <a.h>
== a.h
#include \"n.h\"
#include \"n.h\"
",
            "inc",
            "m.c a.h -inc/a.h -n.h -inc/n.h",
        ),
    ];
    for (tree, dirs, names) in table {
        assert_bundle(&rt, tree, dirs, names)?;
    }
    Ok(())
}

#[test]
fn files_are_gone_through_in_the_order_of_mention(rt: HostRuntime) -> Result<(), Fail> {
    let table = [(
        "\
== m.c
#include \"a.h\"
#include \"b.h\"
== a.h
#include \"c.h\"
== b.h
#include \"d.h\"
#include \"c.h\"
== c.h
#include \"e.h\"
== d.h
#include \"f.h\"
== f.h
",
        "",
        "m.c a.h b.h c.h d.h -e.h f.h",
    )];
    for (tree, dirs, names) in table {
        assert_bundle(&rt, tree, dirs, names)?;
    }
    Ok(())
}

#[test]
fn a_built_in_header_is_gone_through_like_a_file(rt: HostRuntime) -> Result<(), Fail> {
    let table = [
        (
            "\
== m.c
#include <stdio.h>
== inc/stddef.h
#include \"x.h\"
== inc/x.h
",
            "inc",
            "m.c -inc/stdio.h inc/stddef.h inc/x.h",
        ),
        (
            "\
== m.c
#include <stdio.h>
#include \"z.h\"
#include <string.h>
== z.h
#include \"y.h\"
== y.h
",
            "inc",
            "m.c -inc/stdio.h z.h -inc/string.h -inc/stddef.h y.h",
        ),
        (
            "\
== m.c
#include <stdio.h>
== inc/stdio.h
",
            "inc",
            "m.c inc/stdio.h",
        ),
        (
            "\
== m.c
#include \"stdlib.h\"
#include <limits.h>
#include <stdbool.h>
#include <stdint.h>
",
            "",
            "m.c -stdlib.h",
        ),
        (
            "\
== m.c
#include </stddef.h>
#include \"sys/stdio.h\"
",
            "",
            "m.c -/stddef.h -sys/stdio.h",
        ),
    ];
    for (tree, dirs, names) in table {
        assert_bundle(&rt, tree, dirs, names)?;
    }
    Ok(())
}

#[test]
fn mentions_are_the_include_lines_among_the_tokens(rt: HostRuntime) -> Result<(), Fail> {
    let table = [
        // Groups play no part.
        (
            "\
== m.c
#if 0
#include \"a.h\"
#else
#include \"b.h\"
#endif
#include \"c.h\"
",
            "",
            "m.c -a.h -b.h -c.h",
        ),
        // An open comment hides all lines, a closed one those in it.
        (
            "\
== m.c
#include \"a.h\"
/* open
",
            "",
            "m.c",
        ),
        (
            "\
== m.c
/*
#include \"a.h\"
*/ #include \"b.h\"
// #include \"c.h\"
",
            "",
            "m.c -b.h",
        ),
        // Other lines, and a name that a macro would have to give.
        (
            "\
== m.c
x #include \"a.h\"
#define b \"b.h\"
#include b
\"#include <c.h>\"
#include
",
            "inc",
            "m.c",
        ),
        // Blanks, splices, tokens after the name, a quote that isn't closed.
        (
            "\
== m.c
 # include\t\"a.h\" <b.h>
#inc\\
lude <c.h>// <d.h>
#include \"e.h
",
            "inc",
            "m.c -a.h -inc/a.h -inc/c.h",
        ),
        // A backslash is a character of a name.
        (
            "\
== m.c
#include \"a\\b.h\"
#include \"c\\\"
",
            "inc",
            "m.c -a\\b.h -inc/a\\b.h -c\\ -inc/c\\",
        ),
    ];
    for (tree, dirs, names) in table {
        assert_bundle(&rt, tree, dirs, names)?;
    }
    Ok(())
}

#[test]
fn a_name_with_a_byte_that_is_not_printable_mentions_nothing(rt: HostRuntime) -> Result<(), Fail> {
    let table = [
        (
            "\
== m.c
#include \"\u{1f}.h\"
#include <\u{7f}.h>
#include \"\u{e9}.h\"
#include \"a\tb.h\"
",
            "inc",
            "m.c",
        ),
        (
            "\
== m.c
#include \"a b.h\"
#include \"~.h\"
",
            "",
            "m.c -a b.h -~.h",
        ),
    ];
    for (tree, dirs, names) in table {
        assert_bundle(&rt, tree, dirs, names)?;
    }
    Ok(())
}
