//! Many and deep mentions, and reads that fail.
use super::*;

/// A line that mentions the header of this number.
fn mention(alloc: Global, number: u32) -> Result<String, AllocError> {
    format!(in alloc; "#include \"{number}\"\n")
}

/// A number as a name.
fn name_of(alloc: Global, number: u32) -> Result<String, AllocError> {
    format!(in alloc; "{number}")
}

#[test]
fn mentions_end_at_the_64th_that_is_nested(rt: HostRuntime) -> Result<(), Fail> {
    let alloc = rt.alloc();
    let mut files = SafeFiles::new(alloc);
    for number in 0..10_000u32 {
        let text = mention(alloc, number + 1)?;
        let name = name_of(alloc, number)?;
        files.put(name.as_str(), Text::from_slice(alloc, text.as_bytes())?)?;
    }
    let bundle = match gather(alloc, &mut files, "0", &[]) {
        Ok(bundle) => bundle,
        Err(_) => return Err("no bundle".into()),
    };
    assert_eq!(rt; bundle.len(), 65);
    assert_eq!(rt; bundle.name_of(64), Some("64"));
    Ok(())
}

#[test]
fn a_header_that_is_mentioned_10_000_times_is_read_once(rt: HostRuntime) -> Result<(), Fail> {
    let alloc = rt.alloc();
    let mut text = String::new(alloc);
    for _ in 0..10_000 {
        text.push_str("#include \"1\"\n")?;
    }
    // The third read, if there is one, fails.
    let mut files = MemFiles::new(alloc, List::from_slice(alloc, &[3])?);
    files.put("0", Text::from_slice(alloc, text.as_bytes())?)?;
    files.put("1", Text::from_slice(alloc, text.as_bytes())?)?;
    let answer = gather(alloc, &mut files, "0", &[]);
    assert_eq!(rt; answer_shown(alloc, &answer)?.as_str(), "0 1");
    Ok(())
}

#[test]
fn absent_candidates_of_50_folders_are_kept(rt: HostRuntime) -> Result<(), Fail> {
    let alloc = rt.alloc();
    let mut text = String::new(alloc);
    for number in 0..2_000u32 {
        text.push_str(mention(alloc, number)?.as_str())?;
    }
    let mut files = SafeFiles::new(alloc);
    files.put("m.c", Text::from_slice(alloc, text.as_bytes())?)?;
    let mut dirs = Vec::new(alloc);
    for number in 0..50u32 {
        dirs.push(name_of(alloc, number)?)?;
    }
    let bundle = match gather(alloc, &mut files, "m.c", dirs.as_slice()) {
        Ok(bundle) => bundle,
        Err(_) => return Err("no bundle".into()),
    };
    // The main file, and each name in its folder and in each include folder.
    assert_eq!(rt; bundle.len(), 102_001);
    assert!(rt; matches!(bundle.get("49/1999"), Some(Held::Absent)));
    Ok(())
}

const TREE: &str = "\
== m.c
#include \"b.h\"
#include <stdio.h>
== lib/b.h
#include \"c.h\"
";

#[test]
fn a_read_that_fails_is_named(rt: HostRuntime) -> Result<(), Fail> {
    let alloc = rt.alloc();
    let tree = tree_of(alloc, TREE)?;
    let dirs = words_of(alloc, "inc lib")?;
    let table = [
        (1, "cannot read m.c"),
        (2, "cannot read b.h"),
        (3, "cannot read inc/b.h"),
        (4, "cannot read lib/b.h"),
        (5, "cannot read inc/stdio.h"),
        (6, "cannot read lib/stdio.h"),
        (7, "cannot read lib/c.h"),
        (8, "cannot read inc/c.h"),
        (9, "cannot read inc/stddef.h"),
        (10, "cannot read lib/stddef.h"),
        (
            11,
            "m.c -b.h -inc/b.h lib/b.h -inc/stdio.h -lib/stdio.h -lib/c.h -inc/c.h \
-inc/stddef.h -lib/stddef.h",
        ),
    ];
    for (number, names) in table {
        let mut files = files_of(alloc, tree.as_slice(), &[number])?;
        let answer = gather(alloc, &mut files, "m.c", dirs.as_slice());
        assert_eq!(rt;
            answer_shown(alloc, &answer)?.as_str(),
            names,
            "read {number}"
        );
    }
    Ok(())
}

#[test]
fn a_main_file_that_is_not_there_is_a_fault(rt: HostRuntime) -> Result<(), Fail> {
    let alloc = rt.alloc();
    // The second read fails.
    let mut files = MemFiles::new(alloc, List::from_slice(alloc, &[2])?);
    let answer = gather(alloc, &mut files, "m.c", &[]);
    assert_eq!(rt; answer_shown(alloc, &answer)?.as_str(), "no main file");
    let answer = gather(alloc, &mut files, "m.c", &[]);
    assert_eq!(rt; answer_shown(alloc, &answer)?.as_str(), "cannot read m.c");
    Ok(())
}
