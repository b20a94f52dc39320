//! Controlling expressions (6.10.1), from their text to their truth.
use super::*;
use hv_ifexpr::{IfFault, evaluate};
use hv_lexer::lex;

/// The truth of a controlling expression, cut from its text, or `None` where it has none.
fn truth_of(alloc: Global, text: &str) -> Result<Option<bool>, Fail> {
    let Ok(tokens) = lex(alloc, 0, text.as_bytes()) else {
        return Err("the text is not cut".into());
    };
    match evaluate(alloc, tokens.as_slice()) {
        Ok(truth) => Ok(Some(truth)),
        Err(IfFault::Bad) => Ok(None),
        Err(IfFault::Memory) => Err("out of memory".into()),
    }
}

#[test]
fn controlling_expressions_are_cut_and_evaluated(rt: HostRuntime) -> Result<(), Fail> {
    let table = [
        ("1 || 1/0", Some(true)),
        ("1/0", None),
        ("1 << 64", None),
        ("-1 > 0u", Some(true)),
        ("0&&1/0", Some(false)),
        ("1?2:3/0", Some(true)),
        ("'a'==97&&0x10==020", Some(true)),
        ("1+\\\n1==2/* two */", Some(true)),
        ("a+++b", None),
        ("a+ +b", Some(false)),
        ("defined a", None),
        ("1e+5", None),
        ("", None),
    ];
    for (text, truth) in table {
        assert_eq!(rt; truth_of(rt.alloc(), text)?, truth, "at {text:?}");
    }
    Ok(())
}
