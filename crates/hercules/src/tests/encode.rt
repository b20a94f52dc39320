//! `encode`: the metaproduct runs as each variant.
use super::*;

#[test]
fn a_metaproduct_runs_as_each_variant(rt: HostRuntime) -> Result<(), Fail> {
    assert_outputs(&rt, MODEL_A, WRITES_X_AND_A, &[(0, "x"), (1, "xA")])?;
    let only_with_a = "\
int putchar(int);
int main(void) {
#ifdef A
    putchar(65);
#endif
}
";
    assert_outputs(&rt, MODEL_A, only_with_a, &[(0, ""), (1, "A")])
}

const MODEL_A_B_C: &str = "\
option A
option B
option C
";

#[test]
fn groups_nest(rt: HostRuntime) -> Result<(), Fail> {
    let within_a_and_b = "\
int putchar(int);
int main(void) {
#ifdef A
putchar(97);
#ifdef B
putchar(98);
#else
putchar(99);
#endif
#else
putchar(100);
#endif
}
";
    let outputs = [
        (0, "d"),
        (1, "ac"),
        (2, "d"),
        (3, "ab"),
        (5, "ac"),
        (7, "ab"),
    ];
    assert_outputs(&rt, MODEL_A_B_C, within_a_and_b, &outputs)?;
    let within_none = "\
int putchar(int);
int main(void) {
#ifndef A
#ifndef B
\t#ifndef C \n\
putchar(48);
#endif
#endif
#endif
 putchar(46); \n\
}
";
    let outputs = [(0, "0."), (1, "."), (2, "."), (4, "."), (7, ".")];
    assert_outputs(&rt, MODEL_A_B_C, within_none, &outputs)
}

#[test]
fn groups_repeat_an_option(rt: HostRuntime) -> Result<(), Fail> {
    let a_within_a = "\
int putchar(int);
int main(void) {
#ifdef A
#ifdef A
putchar(49);
#else
putchar(50);
#endif
#ifndef A
putchar(51);
#endif
#endif
}
";
    assert_outputs(
        &rt,
        MODEL_A_B_C,
        a_within_a,
        &[(0, ""), (1, "1"), (6, ""), (7, "1")],
    )?;
    let an_empty_group = "\
int putchar(int);
int main(void) {
#ifdef C
#else
putchar(99);
#endif
#ifdef B
#ifndef C
putchar(98);
#else
#ifdef A
putchar(97);
#endif
#endif
#endif
}
";
    let outputs = [
        (0, "c"),
        (1, "c"),
        (2, "cb"),
        (3, "cb"),
        (4, ""),
        (6, ""),
        (7, "a"),
    ];
    assert_outputs(&rt, MODEL_A_B_C, an_empty_group, &outputs)
}

pub const EITHER_A_OR_B: &str = "\
option A
option B
rule A => !B
rule A || B
";

#[test]
fn statements_without_a_valid_configuration_are_left_out(rt: HostRuntime) -> Result<(), Fail> {
    let source = "\
int putchar(int);
int main(void) {
#ifdef A
#ifdef B
putchar(49);
#else
putchar(50);
#endif
#else
#ifdef B
putchar(51);
#else
putchar(52);
#endif
#endif
putchar(53);
}
";
    let product = "\
extern int hv_opt_A ;
extern int hv_opt_B ;
int putchar ( int ) ;
int main ( void ) {
if ( hv_opt_A && ! hv_opt_B ) putchar ( 50 ) ;
if ( ! hv_opt_A && hv_opt_B ) putchar ( 51 ) ;
putchar ( 53 ) ;
}
";
    assert_ended(
        &rt,
        &encoded(rt.alloc(), EITHER_A_OR_B, source)?,
        0,
        product,
        "",
    );
    assert_outputs(&rt, EITHER_A_OR_B, source, &[(1, "25"), (2, "35")])
}

/// A source with so many groups open at a place.
fn open_groups(alloc: Global, count: u32) -> Result<String, AllocError> {
    let mut source = String::from_str(alloc, "int putchar(int);\nint main(void) {\n")?;
    for _ in 0..count {
        source.push_str("#ifdef A\n")?;
    }
    source.push_str("putchar(65);\n")?;
    for _ in 0..count {
        source.push_str("#endif\n")?;
    }
    source.push_str("}\n")?;
    Ok(source)
}

#[test]
fn at_most_256_groups_are_open(rt: HostRuntime) -> Result<(), Fail> {
    let product = "\
extern int hv_opt_A ;
int putchar ( int ) ;
int main ( void ) {
if ( hv_opt_A ) putchar ( 65 ) ;
}
";
    let most = open_groups(rt.alloc(), 256)?;
    assert_ended(
        &rt,
        &encoded(rt.alloc(), MODEL_A, most.as_str())?,
        0,
        product,
        "",
    );
    let more = open_groups(rt.alloc(), 257)?;
    let message = "hercules: fails config= file=main.c line=1 offset=0 via=- why=14 LeftOut\n";
    assert_ended(
        &rt,
        &encoded(rt.alloc(), MODEL_A, more.as_str())?,
        1,
        "",
        message,
    );
    Ok(())
}

/// The options O1 to O60, and a source that writes the byte 64 + i where option Oi is on.
fn sixty_options(alloc: Global) -> Result<(String, String), AllocError> {
    let mut model = String::new(alloc);
    let mut source = String::from_str(alloc, "int putchar(int);\nint main(void) {\n")?;
    for i in 1..61u32 {
        let byte = 64 + i;
        model.push_str(format!(in alloc; "option O{i}\n")?.as_str())?;
        source.push_str(format!(in alloc; "#ifdef O{i}\nputchar({byte});\n#endif\n")?.as_str())?;
    }
    source.push_str("}\n")?;
    Ok((model, source))
}

#[test]
fn sixty_options_are_one_program(rt: HostRuntime) -> Result<(), Fail> {
    let (model, source) = sixty_options(rt.alloc())?;
    assert_outputs(&rt, model.as_str(), source.as_str(), &[(0, ""), (5, "AC")])
}
