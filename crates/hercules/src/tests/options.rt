//! `options`: a definition of each option variable; and `encode` without a model file.
use super::*;

/// `options --model m` for this model, and `--config` with this text.
fn options(alloc: Global, model: &str, config: &str) -> Result<Ended, Fail> {
    call(
        alloc,
        &["options", "--model", "m", "--config", config],
        &mut files_in_memory(alloc, model, "", &[])?,
    )
}

/// Not in the order of letters.
const MODEL_Z_A_M: &str = "\
option Z
option A
option M
rule Z => A
";

#[test]
fn each_option_variable_is_defined(rt: HostRuntime) -> Result<(), Fail> {
    let table = [
        (
            "",
            "int hv_opt_Z = 0;\nint hv_opt_A = 0;\nint hv_opt_M = 0;\n",
        ),
        (
            "A",
            "int hv_opt_Z = 0;\nint hv_opt_A = 1;\nint hv_opt_M = 0;\n",
        ),
        (
            "M",
            "int hv_opt_Z = 0;\nint hv_opt_A = 0;\nint hv_opt_M = 1;\n",
        ),
        (
            "M,A,Z",
            "int hv_opt_Z = 1;\nint hv_opt_A = 1;\nint hv_opt_M = 1;\n",
        ),
    ];
    for (config, definitions) in table {
        assert_ended(
            &rt,
            &options(rt.alloc(), MODEL_Z_A_M, config)?,
            0,
            definitions,
            "",
        );
    }
    Ok(())
}

#[test]
fn other_configurations_are_refused(rt: HostRuntime) -> Result<(), Fail> {
    for config in ["B", "A,A", "A,", "Z", "a", " A", "A;M"] {
        let ended = options(rt.alloc(), MODEL_Z_A_M, config)?;
        assert_ended(&rt, &ended, 2, "", "hercules: bad config\n");
    }
    // The model's own fault comes first.
    let ended = options(rt.alloc(), "option A\noption A\n", "B")?;
    assert_ended(
        &rt,
        &ended,
        7,
        "",
        "hercules: model line=2 kind=2 Repeated\n",
    );
    Ok(())
}

const WRITES_Z: &str = "\
int putchar(int);
int main(void) {
putchar(90);
}
";

#[test]
fn without_a_model_file_there_are_no_options(rt: HostRuntime) -> Result<(), Fail> {
    let product = "int putchar ( int ) ;\nint main ( void ) {\nputchar ( 90 ) ;\n}\n";
    let left_out = "hercules: fails config= file=main.c line=1 offset=0 via=- why=14 LeftOut\n";
    let table: [(&[&str], &str, u8, &str, &str); 6] = [
        (&["options"], "", 0, "", ""),
        (&["options", "--config="], "", 0, "", ""),
        (
            &["options", "--config", "A"],
            "",
            2,
            "",
            "hercules: bad config\n",
        ),
        (&["encode", "main.c"], WRITES_Z, 0, product, ""),
        (&["encode", "-I", "d:e", "main.c"], WRITES_Z, 0, product, ""),
        (&["encode", "main.c"], WRITES_X_AND_A, 1, "", left_out),
    ];
    for (texts, source, status, out, err) in table {
        // The model file that lies there is bad, and a second read would fail.
        let mut files = files_in_memory(rt.alloc(), "option A\nrule\n", source, &[2])?;
        assert_ended(&rt, &call(rt.alloc(), texts, &mut files)?, status, out, err);
    }
    Ok(())
}
