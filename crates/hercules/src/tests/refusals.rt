//! What is refused: arguments, models, sources.
use super::*;

#[test]
fn other_arguments_are_refused(rt: HostRuntime) -> Result<(), Fail> {
    let commands: [&[&str]; 10] = [
        &[],
        &["encode"],
        &["encode", "m", "main.c"],
        &["decode", "--model", "m", "main.c"],
        &["encode", "--model", "m", "main.c", "x"],
        &["encode", "--config", "A", "main.c"],
        &["encode", "-I", "d:", "main.c"],
        &["options", "--model", "m", "main.c"],
        &["options", "--help"],
        &["variant", "--model", "m"],
    ];
    for texts in commands {
        // The first read would fail, so no file is asked for.
        let mut files = files_in_memory(rt.alloc(), MODEL_A, WRITES_X_AND_A, &[1])?;
        let ended = call(rt.alloc(), texts, &mut files)?;
        assert_ended(&rt, &ended, 2, "", "hercules: bad words\n");
    }
    Ok(())
}

#[test]
fn models_are_refused_at_their_first_fault(rt: HostRuntime) -> Result<(), Fail> {
    let table = [
        ("option A\noption A\n", "line=2 kind=2 Repeated"),
        ("option A\nrule A &&\n", "line=2 kind=1 BadLine"),
        ("option A\nrule A || B\noption B\n", "line=2 kind=3 Unknown"),
        (
            "option A\noption B\nrule A && B\nrule !A\n",
            "line=0 kind=5 NoConfiguration",
        ),
    ];
    for (model, fault) in table {
        let message = format!(in rt.alloc(); "hercules: model {fault}\n")?;
        let ended = encoded(rt.alloc(), model, WRITES_X_AND_A)?;
        assert_ended(&rt, &ended, 7, "", message.as_str());
    }
    Ok(())
}

const TWO_ELSES: &str = "\
int putchar(int);
int main(void) {
#ifdef A
#else
#else
#endif
}
";

const A_VARIABLE: &str = "\
int putchar(int);
int x = 65;
int main(void) {
#ifdef A
    int x = 66;
#endif
    putchar(x);
    return 0;
}
";

#[test]
fn other_sources_are_left_out(rt: HostRuntime) -> Result<(), Fail> {
    let sources = [
        "",
        A_VARIABLE,
        TWO_ELSES,
        "int putchar(int);\nint main(void) {\n}\n ",
        "int putchar(int);\nint main(void) {\n}",
        "int putchar(int);\nint main(void) {\n#ifdef A\n}\n",
        "int putchar(int);\nint main(void) {\n#ifdef B\n#endif\n}\n",
        "int putchar(int);\nint main(void) {\n#ifdef  A\n#endif\n}\n",
        "int putchar(int);\r\nint main(void) {\n}\n",
        "int putchar(int);\nint main(void) {\nputchar(256);\n}\n",
    ];
    let message = "hercules: fails config= file=main.c line=1 offset=0 via=- why=14 LeftOut\n";
    for source in sources {
        assert_ended(&rt, &encoded(rt.alloc(), MODEL_A, source)?, 1, "", message);
    }
    Ok(())
}

#[test]
fn the_least_valid_configuration_is_blamed(rt: HostRuntime) -> Result<(), Fail> {
    let message = "hercules: fails config=B file=main.c line=1 offset=0 via=- why=14 LeftOut\n";
    let ended = encoded(rt.alloc(), encode::EITHER_A_OR_B, "int x;\n")?;
    assert_ended(&rt, &ended, 1, "", message);
    Ok(())
}
