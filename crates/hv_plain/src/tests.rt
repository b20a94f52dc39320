//! Small programs run, in each configuration.
use super::*;
use hv_base::{Config, List};
use hv_model::{Model, read_model};
use std::test::Fail;

#[test]
fn small_programs_write_their_bytes(rt: HostRuntime) -> Result<(), Fail> {
    let table = [
        ("int putchar ( int ) ;\nint main ( void ) {\n}\n", Some("")),
        (
            "\
int putchar ( int ) ;
int main ( void ) {
putchar ( 120 ) ;
putchar ( 10 ) ;
}
",
            Some("x\n"),
        ),
        (
            "int\tputchar\n(\nint ) ; int main ( void ) { putchar ( 0 ) ; putchar ( 7 ) ;\t}\t",
            Some("\0\x07"),
        ),
        ("", None),
        ("\n", None),
        (" int putchar ( int ) ;\nint main ( void ) {\n}\n", None),
        ("int  putchar ( int ) ;\nint main ( void ) {\n}\n", None),
        ("int putchar ( int ) ;\nint main ( void ) {\n}", None),
        (
            "int putchar ( int ) ;\nint main ( void ) {\nputchar ( 120 ) ;\n",
            None,
        ),
        ("int putchar ( int ) ;\nint main ( void ) {\n}\n}\n", None),
        (
            "int putchar ( int ) ;\nint main ( void ) {\nputchar( 120 ) ;\n}\n",
            None,
        ),
        (
            "int putchar ( int ) ;\nint main ( void ) {\nputchar ( 256 ) ;\n}\n",
            None,
        ),
        (
            "int putchar ( int ) ;\nint main ( void ) {\nputchar ( 01 ) ;\n}\n",
            None,
        ),
        (
            "int putchar ( int ) ;\nint main ( void ) {\nputchar ( ) ;\n}\n",
            None,
        ),
        (
            "\
int putchar ( int ) ;
int main ( void ) {
if ( hv_opt_A ) putchar ( 120 ) ;
}
",
            None,
        ),
        (
            "int putchar ( int ) ;\nint main ( void ) {\nif ( ) putchar ( 120 ) ;\n}\n",
            None,
        ),
        (
            "extern int hv_opt_A ;\nint putchar ( int ) ;\nint main ( void ) {\n}\n",
            None,
        ),
    ];
    let model = Model::new(rt.alloc());
    let config = Config {
        on: List::new(rt.alloc()),
    };
    for (text, output) in table {
        let answer = small_run(rt.alloc(), text.as_bytes(), &model, &config)?;
        assert_eq!(rt;
            answer.as_ref().map(|bytes| bytes.as_slice()),
            output.map(|bytes| bytes.as_bytes()),
            "at {text:?}"
        );
    }
    Ok(())
}

#[test]
fn small_programs_put_bytes_that_are_no_text(rt: HostRuntime) -> Result<(), Fail> {
    let model = Model::new(rt.alloc());
    let config = Config {
        on: List::new(rt.alloc()),
    };
    let text = b"\
int putchar ( int ) ;
int main ( void ) {
putchar ( 255 ) ;
putchar ( 10 ) ;
putchar ( 99 ) ;
putchar ( 100 ) ;
}
";
    let answer = small_run(rt.alloc(), text, &model, &config)?;
    assert_eq!(rt;
        answer.as_ref().map(|bytes| bytes.as_slice()),
        Some([255, 10, 99, 100].as_slice())
    );
    Ok(())
}

#[test]
fn small_programs_test_their_options(rt: HostRuntime) -> Result<(), Fail> {
    let Ok(model) = read_model(rt.alloc(), b"option A\noption AB\n") else {
        panic!(rt; "the model is read");
    };
    assert_eq!(rt; model.options(), 2);
    // The outputs in the configurations without options, with A, with AB, and with both.
    let table = [
        (
            "\
extern int hv_opt_A ;
int putchar ( int ) ;
int main ( void ) {
if ( hv_opt_A ) putchar ( 65 ) ;
if ( ! hv_opt_A ) putchar ( 97 ) ;
putchar ( 46 ) ;
}
",
            [Some("a."), Some("A."), Some("a."), Some("A.")],
        ),
        (
            "\
extern int hv_opt_AB ;
extern int hv_opt_A ;
extern int hv_opt_A ;
int putchar ( int ) ;
int main ( void ) {
if ( hv_opt_A && ! hv_opt_AB ) putchar ( 49 ) ;
if ( ! hv_opt_A && hv_opt_AB && hv_opt_AB ) putchar ( 50 ) ;
if ( hv_opt_AB && ! hv_opt_AB ) putchar ( 51 ) ;
}
",
            [Some(""), Some("1"), Some("2"), Some("")],
        ),
        (
            "\
extern int hv_opt_A ;
int putchar ( int ) ;
int main ( void ) {
if ( hv_opt_AB ) putchar ( 65 ) ;
}
",
            [None, None, None, None],
        ),
        (
            "extern int hv_opt_B ;\nint putchar ( int ) ;\nint main ( void ) {\n}\n",
            [None, None, None, None],
        ),
        (
            "extern int A ;\nint putchar ( int ) ;\nint main ( void ) {\n}\n",
            [None, None, None, None],
        ),
        (
            "\
extern int hv_opt_A ;
int putchar ( int ) ;
int main ( void ) {
if ( ! ! hv_opt_A ) putchar ( 65 ) ;
}
",
            [None, None, None, None],
        ),
        (
            "\
extern int hv_opt_A ;
int putchar ( int ) ;
int main ( void ) {
if ( hv_opt_A && ) putchar ( 65 ) ;
}
",
            [None, None, None, None],
        ),
    ];
    let configurations = [[false, false], [true, false], [false, true], [true, true]];
    for (text, outputs) in table {
        for (values, output) in configurations.iter().zip(outputs) {
            let config = Config {
                on: List::from_slice(rt.alloc(), values)?,
            };
            assert_eq!(rt; config.on.len(), model.options());
            let answer = small_run(rt.alloc(), text.as_bytes(), &model, &config)?;
            assert_eq!(rt;
                answer.as_ref().map(|bytes| bytes.as_slice()),
                output.map(|bytes| bytes.as_bytes()),
                "at {text:?}"
            );
        }
    }
    Ok(())
}
