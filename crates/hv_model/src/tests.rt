//! Models, their configurations and their refusals.
use super::*;
use hv_base::{Config, List};
use hv_cond::{Node, Store};
use std::alloc::Global;
use std::process::Abort;
use std::test::Fail;

#[test]
fn model_files_have_their_first_fault(rt: HostRuntime) {
    let table = [
        ("", None),
        ("\n\n", None),
        ("option A", None),
        (" \toption\tA \t\n", None),
        ("option A\r\noption B\r\n", None),
        ("# option A\n\t #\noption _b9\n", None),
        ("#\r", None),
        ("\r\n", None),
        (
            "\n \t# option\n\toption  A \r\n \noption B\nrule(A=>!B)||B",
            None,
        ),
        ("option A\nrule A&&B\n", Some((2, ModelKind::Unknown))),
        ("rule int\n", Some((1, ModelKind::Unknown))),
        ("rule hv_x\n", Some((1, ModelKind::Unknown))),
        ("rule B &&\noption A\n", Some((1, ModelKind::BadLine))),
        ("option A\nrule!A\nruleA\n", Some((3, ModelKind::BadLine))),
        ("option A\nrule\n", Some((2, ModelKind::BadLine))),
        ("option A\nrule A & A\n", Some((2, ModelKind::BadLine))),
        ("option A\nrule (A\n", Some((2, ModelKind::BadLine))),
        ("option A\nrule A)\n", Some((2, ModelKind::BadLine))),
        ("wrong\noption A\noption A\n", Some((1, ModelKind::BadLine))),
        ("option\n", Some((1, ModelKind::BadLine))),
        ("optionA\n", Some((1, ModelKind::BadLine))),
        ("Option A\n", Some((1, ModelKind::BadLine))),
        ("option A #\n", Some((1, ModelKind::BadLine))),
        ("option a-b\n", Some((1, ModelKind::BadLine))),
        ("option defined\n", Some((1, ModelKind::BadLine))),
        ("option __LINE__\n", Some((1, ModelKind::BadLine))),
        ("option A B\n", Some((1, ModelKind::BadLine))),
        ("option 1A\n", Some((1, ModelKind::BadLine))),
        ("option int\n", Some((1, ModelKind::BadLine))),
        ("option hv_x\n", Some((1, ModelKind::BadLine))),
        ("option A\r\r\n", Some((1, ModelKind::BadLine))),
        ("option A\noption A\n", Some((2, ModelKind::Repeated))),
        (
            "option A\n\noption A\nrule\n",
            Some((3, ModelKind::Repeated)),
        ),
        (
            "option A\nrule A\nrule !A\n",
            Some((0, ModelKind::NoConfiguration)),
        ),
        (
            "option A\noption B\nrule A && B\nrule !A\n",
            Some((0, ModelKind::NoConfiguration)),
        ),
        (
            "option A\nrule A && !A\nbad\n",
            Some((3, ModelKind::BadLine)),
        ),
    ];
    for (text, fault) in table {
        let found = match read_model(rt.alloc(), text.as_bytes()) {
            Ok(_) => None,
            Err(ModelRefusal::Bad(found)) => Some((found.line, found.kind)),
            Err(ModelRefusal::Memory) => Some((u64::MAX, ModelKind::BadLine)),
        };
        assert_eq!(rt; found, fault, "at {text:?}");
    }
}

/// The valid configurations of three options under a rule: bit k stands for the k-th, A being the
/// lowest bit of k.
fn valid_configurations(rt: &impl Abort, alloc: Global, rule: &str) -> Result<u32, Fail> {
    let text = format!(in alloc; "option A\noption B\noption C\nrule {rule}\n")?;
    let Ok(model) = read_model(alloc, text.as_bytes()) else {
        return Ok(0);
    };
    assert_eq!(rt; model.options(), 3);
    let mut store = Store::new(alloc, 3)?;
    let valid = valid_cond(&model, &mut store)?;
    let mut found = 0u32;
    for k in 0..8u32 {
        let on = [k % 2 == 1, k / 2 % 2 == 1, k / 4 == 1];
        let config = Config {
            on: List::from_slice(alloc, &on)?,
        };
        let is_valid = is_valid(&model, &config);
        assert_eq!(rt; store.eval(valid, &on), is_valid);
        if is_valid {
            found |= 1 << k;
        }
    }
    Ok(found)
}

#[test]
fn rules_have_their_truth_tables(rt: HostRuntime) -> Result<(), Fail> {
    let table = [
        ("A", 0b1010_1010),
        ("!A", 0b0101_0101),
        ("A && B", 0b1000_1000),
        ("A || B", 0b1110_1110),
        ("A => B", 0b1101_1101),
        ("A || B && C", 0b1110_1010),
        ("(A || B) && C", 0b1110_0000),
        ("A => B => C", 0b1111_0111),
        ("(A => B) => C", 0b1111_0010),
        ("A => B || C", 0b1111_1101),
        ("!A && B || !!C", 0b1111_0100),
        ("!(A => B) => C && A", 0b1111_1101),
    ];
    for (rule, configurations) in table {
        assert_eq!(rt;
            valid_configurations(&rt, rt.alloc(), rule)?,
            configurations,
            "at {rule:?}"
        );
    }
    Ok(())
}

#[test]
fn texts_of_configurations(rt: HostRuntime) -> Result<(), Fail> {
    let Ok(model) = read_model(rt.alloc(), b"option A\noption B\noption C\n") else {
        return Err("no model".into());
    };
    let table = [
        ("", Ok("")),
        ("A", Ok("A")),
        ("C,A", Ok("A,C")),
        ("B,C,A", Ok("A,B,C")),
        ("D", Err(ConfigFault::Unknown { piece: 0 })),
        ("A,", Err(ConfigFault::Unknown { piece: 1 })),
        (",", Err(ConfigFault::Unknown { piece: 0 })),
        ("A, B", Err(ConfigFault::Unknown { piece: 1 })),
        ("A,B,A,D", Err(ConfigFault::Repeated { piece: 2 })),
    ];
    for (text, answer) in table {
        match (read_config(rt.alloc(), &model, text), answer) {
            (Ok(config), Ok(printed)) => {
                assert_eq!(rt; config.on.len(), model.options());
                let text = print_config(rt.alloc(), &model, &config)?;
                assert_eq!(rt; text.as_slice(), printed.as_bytes());
            }
            (Err(fault), Err(expected)) => assert_eq!(rt; fault, expected),
            _ => assert!(rt; false, "at {text:?}"),
        }
    }
    Ok(())
}

#[test]
fn long_chains_and_deep_rules(rt: HostRuntime) -> Result<(), Fail> {
    for (part, line) in [(" => A", 0), (" && A", 0), ("(", 2), ("!", 2)] {
        let mut text = String::from_str(rt.alloc(), "option A\nrule A")?;
        for _ in 0..100_000u32 {
            text.push_str(part)?;
        }
        let found = match read_model(rt.alloc(), text.as_bytes()) {
            Ok(_) => 0,
            Err(ModelRefusal::Bad(fault)) => fault.line,
            Err(ModelRefusal::Memory) => 9,
        };
        assert_eq!(rt; found, line, "at {part:?}");
    }
    Ok(())
}

#[test]
fn a_model_has_at_most_256_options(rt: HostRuntime) -> Result<(), Fail> {
    let mut text = String::new(rt.alloc());
    for number in 0..256u32 {
        text.push_str("option O")?;
        text.push_str(number.to_string(rt.alloc())?.as_str())?;
        text.push_str("\n")?;
    }
    let Ok(model) = read_model(rt.alloc(), text.as_bytes()) else {
        panic!(rt; "256 options are read");
    };
    assert_eq!(rt; model.options(), 256);
    assert_eq!(rt; model.name(255), "O255");
    text.push_str("option P\n")?;
    match read_model(rt.alloc(), text.as_bytes()) {
        Err(ModelRefusal::Bad(fault)) => {
            assert_eq!(rt; fault.line, 257);
            assert_eq!(rt; fault.kind.name(), "TooMany");
            assert_eq!(rt; fault.kind.number(), 4);
        }
        _ => panic!(rt; "option 257 is refused"),
    }
    Ok(())
}

#[test]
fn sixty_options_without_rules_are_always_valid(rt: HostRuntime) -> Result<(), Fail> {
    let mut text = String::new(rt.alloc());
    for number in 1..61u32 {
        text.push_str("option O")?;
        text.push_str(number.to_string(rt.alloc())?.as_str())?;
        text.push_str("\n")?;
    }
    let Ok(model) = read_model(rt.alloc(), text.as_bytes()) else {
        panic!(rt; "60 options are read");
    };
    assert_eq!(rt; model.options(), 60);
    let mut store = Store::new(rt.alloc(), 60)?;
    let valid = valid_cond(&model, &mut store)?;
    assert!(rt; valid == store.truth());
    Ok(())
}

#[test]
fn the_least_valid_configuration_is_named(rt: HostRuntime) -> Result<(), Fail> {
    let table = [
        ("", ""),
        ("option A\noption B\n", ""),
        ("option A\noption B\nrule A => !B\nrule A || B\n", "B"),
        ("option A\noption B\nrule A\n", "A"),
        (
            "option A\noption B\noption C\nrule A && B || A && C\n",
            "A,C",
        ),
    ];
    for (text, least) in table {
        let Ok(model) = read_model(rt.alloc(), text.as_bytes()) else {
            panic!(rt; "the model is read");
        };
        let Some(config) = least_valid(rt.alloc(), &model)? else {
            panic!(rt; "a configuration is valid");
        };
        assert_eq!(rt; config.on.len(), model.options());
        let printed = print_config(rt.alloc(), &model, &config)?;
        assert_eq!(rt; printed.as_slice(), least.as_bytes(), "at {text:?}");
    }
    Ok(())
}

/// Adds a line for each option from 0 on, of this letter and its number.
fn add_options(text: &mut String, alloc: Global, letter: &str, count: u32) -> Result<(), Fail> {
    for number in 0..count {
        text.push_str("option ")?;
        text.push_str(letter)?;
        text.push_str(number.to_string(alloc)?.as_str())?;
        text.push_str("\n")?;
    }
    Ok(())
}

/// Options in two blocks, and between each and its partner this operator; before each pair this
/// text.
fn partners(alloc: Global, count: u32, before: &str, operator: &str) -> Result<String, Fail> {
    let mut text = String::new(alloc);
    add_options(&mut text, alloc, "x", count)?;
    add_options(&mut text, alloc, "y", count)?;
    text.push_str("rule x0")?;
    text.push_str(operator)?;
    text.push_str("y0")?;
    for number in 1..count {
        let number = number.to_string(alloc)?;
        text.push_str(before)?;
        text.push_str("x")?;
        text.push_str(number.as_str())?;
        text.push_str(operator)?;
        text.push_str("y")?;
        text.push_str(number.as_str())?;
    }
    Ok(text)
}

#[test]
fn partners_in_two_blocks_have_a_small_diagram(rt: HostRuntime) -> Result<(), Fail> {
    let table = [("\nrule ", " => ", ""), (" || ", " && ", "x63,y63")];
    for (before, operator, least) in table {
        let text = partners(rt.alloc(), 64, before, operator)?;
        let Ok(diagram) = read_diagram(rt.alloc(), text.as_bytes()) else {
            panic!(rt; "the model is read");
        };
        let Some(config) = diagram.least()? else {
            panic!(rt; "a configuration is valid");
        };
        assert_eq!(rt; config.on.len(), 128);
        let printed = print_config(rt.alloc(), &diagram.model, &config)?;
        assert_eq!(rt; printed.as_slice(), least.as_bytes(), "at {operator:?}");
    }
    Ok(())
}

#[test]
fn the_least_configuration_goes_by_number_whatever_the_order(rt: HostRuntime) -> Result<(), Fail> {
    let text = "\
        option A\n\
        option B\n\
        option C\n\
        rule B || A\n\
        rule A || C\n";
    let Ok(model) = read_model(rt.alloc(), text.as_bytes()) else {
        panic!(rt; "the model is read");
    };
    let diagram = ModelDiagram::new(rt.alloc(), model)?;
    match diagram.store.node(diagram.valid) {
        Node::Branch { var, .. } => assert_eq!(rt; var, 1),
        _ => panic!(rt; "the rules may hold and may not"),
    }
    let Some(config) = diagram.least()? else {
        panic!(rt; "a configuration is valid");
    };
    let printed = print_config(rt.alloc(), &diagram.model, &config)?;
    assert_eq!(rt; printed.as_slice(), b"B,C".as_slice());
    Ok(())
}
