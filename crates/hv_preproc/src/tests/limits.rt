//! Limits, and what doesn't grow with the number of configurations.
ghost use Rattle.std.specs.Prelude.{IfOk};
ghost use Rattle.hv_base.specs.Bundles.{HasMain};

use super::*;

/// The refusal of a file that includes itself by a directive at its ninth byte, so often that one
/// more include would be open than may be.
fn includes_itself_too_often(alloc: Global) -> Result<String, Memory> {
    let mut refusal = String::from_str(alloc, "IncludeTooDeep at ")?;
    for _ in 0..64 {
        refusal.push_str("9 > ")?;
    }
    refusal.push_str("0 : 9")?;
    Ok(refusal)
}

#[test]
fn a_file_that_includes_itself_is_too_deep(rt: HostRuntime) -> Result<(), Fail> {
    let refusal = includes_itself_too_often(rt.alloc())?;
    assert_left(
        &rt,
        rt.alloc(),
        THREE_OPTIONS,
        &[("main.c", "#ifdef A\n#include \"main.c\"\n#endif\n x")],
        &[
            ("A", refusal.as_str()),
            ("A,B,C", refusal.as_str()),
            ("B,C", "x"),
        ],
    )
}

/// A model with so many options, `O1` and on.
fn options(alloc: Global, count: u16) -> Result<String, Memory> {
    let mut text = String::new(alloc);
    for i in 1..u32::from(count) + 1 {
        let line = format!(in alloc; "option O{i}\n")?;
        text.push_str(line.as_str())?;
    }
    Ok(text)
}

/// A program with one statement for each of so many options.
fn statements(alloc: Global, count: u16) -> Result<String, Memory> {
    let mut text = String::from_str(alloc, "int main(void) {\n")?;
    for i in 1..u32::from(count) + 1 {
        let number = 64 + i;
        let lines = format!(in alloc; "#ifdef O{i}\nputchar({number});\n#endif\n")?;
        text.push_str(lines.as_str())?;
    }
    text.push_str("}\n")?;
    Ok(text)
}

#[test]
fn sixty_options_are_sixty_pieces(rt: HostRuntime) -> Result<(), Fail> {
    let model = options(rt.alloc(), 60)?;
    let source = statements(rt.alloc(), 60)?;
    let tokens = "int main ( void ) { putchar ( 65 ) ; putchar ( 67 ) ; }";
    assert_left(
        &rt,
        rt.alloc(),
        model.as_str(),
        &[("main.c", source.as_str())],
        &[("O1,O3", tokens), ("", "int main ( void ) { }")],
    )
}

/// A macro that stands for the number of the last option that is on, of so many.
fn last_of(alloc: Global, count: u16) -> Result<String, Memory> {
    let mut text = String::new(alloc);
    for i in 1..u32::from(count) + 1 {
        let lines = format!(in alloc; "#ifdef O{i}\n#undef LAST\n#define LAST {i}\n#endif\n")?;
        text.push_str(lines.as_str())?;
    }
    text.push_str("LAST\n")?;
    Ok(text)
}

#[test]
fn a_macro_of_sixty_options_has_sixty_one_meanings(rt: HostRuntime) -> Result<(), Fail> {
    let model = options(rt.alloc(), 60)?;
    let source = last_of(rt.alloc(), 60)?;
    assert_left(
        &rt,
        rt.alloc(),
        model.as_str(),
        &[("main.c", source.as_str())],
        &[("O1,O3", "3"), ("O3,O60", "60"), ("", "LAST")],
    )
}

/// A line with a macro that stands for so many options, before which so many lines stand.
fn one_macro_for_all(alloc: Global, count: u16) -> Result<String, Memory> {
    let mut text = String::from_str(alloc, "#define ALL")?;
    for i in 1..u32::from(count) + 1 {
        let name = format!(in alloc; " O{i}")?;
        text.push_str(name.as_str())?;
    }
    text.push_str("\nx ALL\n")?;
    Ok(text)
}

#[test]
fn ten_options_are_not_too_many_faces(rt: HostRuntime) -> Result<(), Fail> {
    let model = options(rt.alloc(), 10)?;
    let source = one_macro_for_all(rt.alloc(), 10)?;
    assert_left(
        &rt,
        rt.alloc(),
        model.as_str(),
        &[("main.c", source.as_str())],
        &[("O1,O3", "x 1 O2 1 O4 O5 O6 O7 O8 O9 O10")],
    )
}

#[test]
fn eleven_options_are_too_many_faces(rt: HostRuntime) -> Result<(), Fail> {
    let alloc = rt.alloc();
    let model = options(alloc, 11)?;
    let source = one_macro_for_all(alloc, 11)?;
    let model = model_of(alloc, model.as_str())?;
    let bundle = bundle_of(alloc, &[("main.c", source.as_str())])?;
    let mut store = Store::new(alloc, model.options() as u32)?;
    let valid = valid_cond(&model, &mut store)?;
    let reserved = ReservedNames::Refused;
    match preprocess_all(alloc, &mut store, valid, &bundle, &model, reserved) {
        Err(PreFault::TooMany { place, configs }) => {
            assert_eq!(rt; configs.len(), 1025);
            // `#define ALL O1 .. O11` has 11 + 9 * 3 + 2 * 4 bytes and a newline
            assert_eq!(rt; place.offset, 49);
            Ok(())
        }
        _ => Err(Fail::from("too many")),
    }
}

#[test]
fn an_episode_may_be_too_long(rt: HostRuntime) -> Result<(), Fail> {
    let source = "\
#define D(x) x x
int main(void) { return \
D(D(D(D(D(D(D(D(D(D(D(D(D(D(D(D(D(1))))))))))))))))); }
";
    assert_left(
        &rt,
        rt.alloc(),
        NO_OPTION,
        &[("main.c", source)],
        &[("", "EpisodeTooLong at 0 : 41")],
    )
}

/// A file with so many open groups, the first of which asks for an option.
fn nested_groups(alloc: Global, count: u16) -> Result<String, Memory> {
    let mut text = String::from_str(alloc, "#ifdef A\n")?;
    for _ in 1..count {
        text.push_str("#if 1\n")?;
    }
    text.push_str("in\n")?;
    for _ in 0..count {
        text.push_str("#endif\n")?;
    }
    text.push_str("end\n")?;
    Ok(text)
}

#[test]
fn so_many_groups_may_be_open(rt: HostRuntime) -> Result<(), Fail> {
    let source = nested_groups(rt.alloc(), 256)?;
    assert_left(
        &rt,
        rt.alloc(),
        THREE_OPTIONS,
        &[("main.c", source.as_str())],
        &[("A", "in end"), ("B,C", "end")],
    )
}

#[test]
fn one_more_open_group_is_refused_in_all(rt: HostRuntime) -> Result<(), Fail> {
    let source = nested_groups(rt.alloc(), 257)?;
    // the 257th `#` stands after `#ifdef A` and 255 lines of six bytes, also where all is skipped
    assert_left(
        &rt,
        rt.alloc(),
        THREE_OPTIONS,
        &[("main.c", source.as_str())],
        &[("A", "TooDeep at 0 : 1539"), ("B,C", "TooDeep at 0 : 1539")],
    )
}

#[test]
fn a_header_with_one_more_open_group_is_refused_where_it_is_entered(
    rt: HostRuntime,
) -> Result<(), Fail> {
    let header = nested_groups(rt.alloc(), 257)?;
    assert_left(
        &rt,
        rt.alloc(),
        THREE_OPTIONS,
        &[
            ("main.c", "#ifdef B\n#include <deep.h>\n#endif\nend\n"),
            ("inc/deep.h", header.as_str()),
        ],
        &[
            ("B", "TooDeep at 9 > 1 : 1539"),
            ("A,B,C", "TooDeep at 9 > 1 : 1539"),
            ("A,C", "end"),
        ],
    )
}

/// A file of a chain: it includes the next, but for the last.
fn link(alloc: Global, index: u32, count: u32) -> Result<String, Memory> {
    if index < count {
        let next = index + 1;
        Ok(format!(in alloc; "#include \"{next}\"\n")?)
    } else {
        Ok(String::from_str(alloc, "last\n")?)
    }
}

/// A main file, and so many headers each of which includes the next.
fn chain(alloc: Global, count: u16) -> Result<Bundle, Memory>
    ensures { IfOk result HasMain }
{
    let count = u32::from(count);
    let first = link(alloc, 0, count)?;
    let mut bundle = main_alone(alloc, "0", first.as_str())?;
    for i in 1..count + 1 {
        let name = format!(in alloc; "{i}")?;
        let text = link(alloc, i, count)?;
        add_file(alloc, &mut bundle, name.as_str(), text.as_str())?;
    }
    Ok(bundle)
}

/// The number of tokens, or of the cause of the first refusal, of a chain of headers.
fn chain_comes_to(alloc: Global, count: u16) -> Result<(usize, u8), Memory> {
    let model = model_of(alloc, NO_OPTION)?;
    let bundle = chain(alloc, count)?;
    let mut store = Store::new(alloc, model.options() as u32)?;
    let valid = valid_cond(&model, &mut store)?;
    let reserved = ReservedNames::Refused;
    match preprocess(alloc, &mut store, valid, &bundle, &model, reserved) {
        Ok(stream) => Ok((stream.len(), 0)),
        Err(Refusal::Fails { why, .. }) => Ok((0, why.number())),
        Err(_) => Err(Memory),
    }
}

#[test]
fn so_many_includes_may_be_open(rt: HostRuntime) -> Result<(), Fail> {
    assert_eq!(rt; chain_comes_to(rt.alloc(), 64)?, (1, 0));
    assert_eq!(rt; chain_comes_to(rt.alloc(), 65)?, (0, 7));
    Ok(())
}
