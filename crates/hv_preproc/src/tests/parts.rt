//! String literals that aren't joined, and where tokens come from.
ghost use Rattle.std.specs.Prelude.{◌≡◌, All, IfOk, OnOk, length};
ghost use Rattle.hv_base.specs.Bundles.{HasMain};
ghost use Rattle.hv_cond.specs.Diagram.{IsNode};

use super::*;
use hv_base::Start;

/// What a bundle has for a parser in each valid configuration.
fn parts(
    alloc: Global,
    store: &mut Store,
    model: &Model,
    bundle: &Bundle,
) -> Result<Parted<Stream>, Memory>
    requires main { HasMain bundle.now }
    requires variables { store.old.variables ≡ length model.now.names }
    ensures variables { OnOk result (store.new.variables ≡ store.old.variables) }
    ensures conditions { IfOk result
        (λ parted. All (λ token. IsNode store.new token.cond) parted.value) }
{
    let valid = valid_cond(model, store)?;
    match preprocess_parts(alloc, store, valid, bundle, model, ReservedNames::Refused) {
        Ok(parted) => Ok(parted),
        Err(_) => Err(Memory),
    }
}

#[test]
fn adjacent_strings_are_joined(rt: HostRuntime) -> Result<(), Fail> {
    let source = "x = \"a\"\n#ifdef A\n\"b\"\n#endif\n\"c\";\n";
    assert_left(
        &rt,
        rt.alloc(),
        ONE_OPTION,
        &[("main.c", source)],
        &[("A", "x = \"abc\" ;"), ("", "x = \"ac\" ;")],
    )
}

#[test]
fn sixty_parts_of_a_string_stay_sixty_tokens(rt: HostRuntime) -> Result<(), Fail> {
    let alloc = rt.alloc();
    let mut model = String::new(alloc);
    let mut source = String::new(alloc);
    for i in 0..60 {
        let option = format!(in alloc; "option O{i}\n")?;
        model.push_str(option.as_str())?;
        let lines = format!(in alloc; "#ifdef O{i}\n\"{i}\"\n#endif\n")?;
        source.push_str(lines.as_str())?;
    }
    let model = model_of(alloc, model.as_str())?;
    let bundle = bundle_of(alloc, &[("main.c", source.as_str())])?;
    let mut store = Store::new(alloc, model.options() as u32)?;
    let parted = parts(alloc, &mut store, &model, &bundle)?;
    assert_eq!(rt; parted.value.len(), 60);
    assert_eq!(rt; parted.failing.len(), 0);
    Ok(())
}

/// Writes the place and the index of a start.
fn write_start(alloc: Global, out: &mut Text, start: &Start) -> Result<(), Memory> {
    for offset in start.place.stack.as_slice() {
        write_number(alloc, out, *offset)?;
        out.extend_from_slice(b"> ")?;
    }
    write_number(alloc, out, u64::from(start.place.file))?;
    write_number(alloc, out, start.place.offset)?;
    write_number(alloc, out, start.index)?;
    out.extend_from_slice(b"; ")
}

/// The places and indices of the tokens that a configuration keeps.
fn kept_starts(
    alloc: Global,
    store: &Store,
    stream: &Stream,
    config: &Config,
) -> Result<Text, Memory>
    requires conditions { All (λ token. IsNode store.now token.cond) stream.now }
    requires values { length config.now.on ≡ store.now.variables }
{
    let mut out = Text::new(alloc);
    for token in stream.as_slice() {
        if store.eval(token.cond, config.on.as_slice()) {
            write_start(alloc, &mut out, &token.start)?;
        }
    }
    Ok(out)
}

/// The places and indices of a configuration's tokens.
fn starts_of(alloc: Global, files: &[(&str, &str)], config: &str) -> Result<Text, Memory> {
    let model = model_of(alloc, ONE_OPTION)?;
    let bundle = bundle_of(alloc, files)?;
    let config = config_of(alloc, &model, config)?;
    let mut store = Store::new(alloc, model.options() as u32)?;
    let parted = parts(alloc, &mut store, &model, &bundle)?;
    kept_starts(alloc, &store, &parted.value, &config)
}

/// Whether a configuration's tokens have these places and indices.
fn assert_starts(
    rt: &impl Abort,
    alloc: Global,
    files: &[(&str, &str)],
    config: &str,
    wanted: &str,
) -> Result<(), Fail> {
    let found = starts_of(alloc, files, config)?;
    let found = match str::from_utf8(found.as_slice()) {
        Ok(found) => found,
        Err(_) => "no text",
    };
    assert_eq!(rt; found, wanted);
    Ok(())
}

#[test]
fn a_start_has_a_place_and_an_index(rt: HostRuntime) -> Result<(), Fail> {
    // the header is entered twice, so its token has two places
    let files = [
        (
            "main.c",
            "#ifdef A\n#define M 1 2\n#else\n#define M 3\n#endif\nM\n\
#include <t.h>\n#include <t.h>\n",
        ),
        ("inc/t.h", "t\n"),
    ];
    // 9 + 14 + 6 + 12 + 7 bytes stand before `M`, and two more before the first `#include`
    let with = "0 48 0 ; 0 48 1 ; 50 > 1 0 0 ; 65 > 1 0 0 ; ";
    let without = "0 48 0 ; 50 > 1 0 0 ; 65 > 1 0 0 ; ";
    assert_starts(&rt, rt.alloc(), &files, "A", with)?;
    assert_starts(&rt, rt.alloc(), &files, "", without)
}
