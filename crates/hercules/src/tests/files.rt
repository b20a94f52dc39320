//! Files that can't be used.
use super::*;

#[test]
fn files_are_missing_or_fail(rt: HostRuntime) -> Result<(), Fail> {
    let table: [(&[&str], &[u64], &str); 9] = [
        (&["encode", "--model", "n", "main.c"], &[], "no file n"),
        (&["encode", "--model", "m", "n.c"], &[], "no file n.c"),
        (&["encode", "--model", "n", "n.c"], &[], "no file n"),
        (&["encode", "n.c"], &[], "no file n.c"),
        (&["encode", "--model=n", "main.c"], &[2], "no file n"),
        (&["encode", "--model=m", "main.c"], &[1], "cannot read m"),
        (
            &["encode", "--model=m", "main.c"],
            &[2],
            "cannot read main.c",
        ),
        (
            &["options", "--model", "n", "--config", "X"],
            &[],
            "no file n",
        ),
        (
            &["options", "--model", "m", "--config", "X"],
            &[1],
            "cannot read m",
        ),
    ];
    for (texts, fails, fault) in table {
        let message = format!(in rt.alloc(); "hercules: {fault}\n")?;
        let mut files = files_in_memory(rt.alloc(), MODEL_A, WRITES_X_AND_A, fails)?;
        let ended = call(rt.alloc(), texts, &mut files)?;
        assert_ended(&rt, &ended, 3, "", message.as_str());
    }
    Ok(())
}

/// A file of one byte more than a file may have.
fn beyond_the_limit(alloc: Global) -> Result<Text, Fail> {
    let bytes = vec![in alloc; b'\n'; 16_777_217]?;
    Ok(Text::from_vec(bytes))
}

#[test]
fn files_beyond_the_limit_are_refused(rt: HostRuntime) -> Result<(), Fail> {
    let table: [(&[&str], &str, &str); 3] = [
        (&["encode", "--model=m", "main.c"], "m", "m 16777217 0"),
        (
            &["encode", "--model=m", "main.c"],
            "main.c",
            "main.c 16777217 16777217",
        ),
        (&["options", "--model=m"], "m", "m 16777217 0"),
    ];
    for (texts, name, fault) in table {
        let message = format!(in rt.alloc(); "hercules: too big {fault}\n")?;
        let mut files = files_in_memory(rt.alloc(), MODEL_A, WRITES_X_AND_A, &[])?;
        files.put(name, beyond_the_limit(rt.alloc())?)?;
        let ended = call(rt.alloc(), texts, &mut files)?;
        assert_ended(&rt, &ended, 3, "", message.as_str());
    }
    Ok(())
}
