//! Refusals with their places.
use super::*;

#[test]
fn a_refusal_stands_where_it_is_first_met(rt: HostRuntime) -> Result<(), Fail> {
    let source = "\
#ifdef A
#error
#endif
#if B
1e9z
#endif
#include <none.h>
";
    assert_left(
        &rt,
        rt.alloc(),
        TWO_OPTIONS,
        &[("main.c", source)],
        &[
            ("A,B", "ErrorDirective at 0 : 9"),
            ("A", "ErrorDirective at 0 : 9"),
            ("B", "NoFile at 0 : 41"),
            ("", "NoFile at 0 : 41"),
        ],
    )
}

#[test]
fn tokens_are_refused_after_lines(rt: HostRuntime) -> Result<(), Fail> {
    let source = "\
1e9z
#ifdef A
#error
#elif B
goto
#endif
hv_x
";
    assert_left(
        &rt,
        rt.alloc(),
        TWO_OPTIONS,
        &[("main.c", source)],
        &[
            ("A,B", "ErrorDirective at 0 : 14"),
            ("B", "BadConstant at 0 : 0"),
            ("", "BadConstant at 0 : 0"),
        ],
    )
}

/// Whether these lines are refused so where option A is on, after a line of nine bytes, and the
/// rest of the file is left elsewhere.
fn assert_refused(rt: &impl Abort, alloc: Global, lines: &str, refusal: &str) -> Result<(), Fail> {
    let source = format!(in alloc; "#ifdef A\n{lines}\n#endif\nend\n")?;
    assert_left(
        rt,
        alloc,
        THREE_OPTIONS,
        &[
            ("main.c", source.as_str()),
            ("inc/comment.h", "int i; /* "),
            ("inc/group.h", "\n#if 1\n"),
        ],
        &[
            ("A", refusal),
            ("A,B,C", refusal),
            ("", "end"),
            ("B,C", "end"),
        ],
    )
}

#[test]
fn directives_are_refused_at_their_place(rt: HostRuntime) -> Result<(), Fail> {
    let rows = [
        ("#include <comment.h>", "OpenComment at 9 > 1 : 7"),
        ("#nonsense", "BadDirective at 0 : 9"),
        ("#ifdef 1\n#endif", "BadDirective at 0 : 9"),
        ("#include <group.h>", "Unbalanced at 9 > 2 : 1"),
        ("#if 1 / 0\n#endif", "BadCondition at 0 : 9"),
        (" #error", "ErrorDirective at 0 : 10"),
        ("#include <none.h>", "NoFile at 0 : 9"),
        ("#define 1", "BadDefine at 0 : 9"),
        ("#undef", "BadDefine at 0 : 9"),
    ];
    for (lines, refusal) in rows {
        assert_refused(&rt, rt.alloc(), lines, refusal)?;
    }
    Ok(())
}

#[test]
fn episodes_are_refused_at_their_first_token(rt: HostRuntime) -> Result<(), Fail> {
    let rows = [
        ("#define f(x) x\nf(1, 2)", "BadInvocation at 0 : 24"),
        (
            "#define f(x) x\nf(\n#define g\n1)",
            "DirectiveInArguments at 0 : 24",
        ),
        ("#define p(x, y) x ## y\np(+, 1)", "BadPaste at 0 : 32"),
        (
            "#define D(x) x x\nD(D(D(D(D(D(D(D(D(D(D(D(D(D(D(D(D(1)))))))))))))))))",
            "EpisodeTooLong at 0 : 26",
        ),
    ];
    for (lines, refusal) in rows {
        assert_refused(&rt, rt.alloc(), lines, refusal)?;
    }
    Ok(())
}

#[test]
fn tokens_are_refused_at_their_episode(rt: HostRuntime) -> Result<(), Fail> {
    let rows = [
        ("x 08", "BadConstant at 0 : 11"),
        ("1.5", "LeftOut at 0 : 9"),
        ("x @", "Syntax at 0 : 11"),
        ("hv_x", "Reserved at 0 : 9"),
        ("#define m 1 hv_y\nm", "Reserved at 0 : 26"),
    ];
    for (lines, refusal) in rows {
        assert_refused(&rt, rt.alloc(), lines, refusal)?;
    }
    Ok(())
}

/// The text of the least failing configuration, and the number of its cause.
fn least_refused(alloc: Global, model: &str, source: &str) -> Result<(bool, bool, u8), Memory> {
    let model = model_of(alloc, model)?;
    let bundle = bundle_of(alloc, &[("main.c", source)])?;
    let mut store = Store::new(alloc, model.options() as u32)?;
    let valid = valid_cond(&model, &mut store)?;
    let reserved = ReservedNames::Refused;
    match preprocess(alloc, &mut store, valid, &bundle, &model, reserved) {
        Err(Refusal::Fails { config, why, .. }) => match config.on.as_slice() {
            [a, b] => Ok((*a, *b, why.number())),
            _ => Err(Memory),
        },
        _ => Err(Memory),
    }
}

#[test]
fn the_least_failing_configuration_is_named(rt: HostRuntime) -> Result<(), Fail> {
    // the first entry fails with A alone, the second with B alone, which is less: A is off
    let source = "#if A && !B\n#error\n#endif\n#if B && !A\n@\n#endif\n";
    assert_eq!(rt;
        least_refused(rt.alloc(), TWO_OPTIONS, source)?,
        (false, true, 15)
    );
    Ok(())
}
