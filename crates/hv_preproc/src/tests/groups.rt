//! Conditional groups.
use super::*;

#[test]
fn groups_are_processed_by_their_lines(rt: HostRuntime) -> Result<(), Fail> {
    let source = "\
#if defined(A) && B
both
#elif A
#ifndef B
only
#else
never
#endif
#elif 1 / A
division
#else
none
#endif
end
";
    // the third line is asked where neither of the first two holds, so where A is no macro
    assert_left(
        &rt,
        rt.alloc(),
        TWO_OPTIONS,
        &[("main.c", source)],
        &[
            ("A,B", "both end"),
            ("A", "only end"),
            ("B", "BadCondition at 0 : 67"),
            ("", "BadCondition at 0 : 67"),
        ],
    )
}

#[test]
fn open_groups_are_refused_at_the_innermost(rt: HostRuntime) -> Result<(), Fail> {
    let source = "#if 1\n#ifdef A\n#else\n#else\n";
    assert_left(
        &rt,
        rt.alloc(),
        ONE_OPTION,
        &[("main.c", source)],
        &[("A", "Unbalanced at 0 : 21"), ("", "Unbalanced at 0 : 21")],
    )?;
    let source = "a\n#if 1\n#ifdef A\n";
    assert_left(
        &rt,
        rt.alloc(),
        ONE_OPTION,
        &[("main.c", source)],
        &[("A", "Unbalanced at 0 : 8"), ("", "Unbalanced at 0 : 8")],
    )
}
