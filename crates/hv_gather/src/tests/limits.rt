//! The limits on one file and on all files of a bundle.
use super::*;

/// So many blanks, which a file may have without a token.
fn blanks(alloc: Global, count: usize) -> Result<Text, AllocError> {
    Ok(Text::from_vec(vec![in alloc; b' '; count]?))
}

/// The length and the total of a file that is too big.
fn sizes(answer: &Result<Bundle, GatherFault>) -> Option<(u64, u64)> {
    match answer {
        Err(GatherFault::TooBig { length, total, .. }) => Some((*length, *total)),
        _ => None,
    }
}

#[test]
fn a_file_beyond_its_limit_is_too_big(rt: HostRuntime) -> Result<(), Fail> {
    let alloc = rt.alloc();
    let mut files = SafeFiles::new(alloc);
    files.put("m.c", Text::from_slice(alloc, b"#include \"a.h\"\n")?)?;
    files.put("a.h", blanks(alloc, 16_777_217)?)?;
    let answer = gather(alloc, &mut files, "a.h", &[]);
    assert_eq!(rt; sizes(&answer), Some((16_777_217, 16_777_217)));
    let answer = gather(alloc, &mut files, "m.c", &[]);
    assert_eq!(rt; sizes(&answer), Some((16_777_217, 16_777_232)));
    assert_eq!(rt; answer_shown(alloc, &answer)?.as_str(), "too big a.h");
    Ok(())
}

#[test]
fn files_beyond_their_limit_are_too_big_together(rt: HostRuntime) -> Result<(), Fail> {
    let alloc = rt.alloc();
    let mut files = SafeFiles::new(alloc);
    // 60 bytes, as many as `d.h` has less than its limit.
    let main = b"#include \"a.h\"\n#include \"b.h\"\n#include \"c.h\"\n#include \"d.h\"\n";
    files.put("m.c", Text::from_slice(alloc, main)?)?;
    for name in ["a.h", "b.h", "c.h"] {
        files.put(name, blanks(alloc, 16_777_216)?)?;
    }
    files.put("d.h", blanks(alloc, 16_777_156)?)?;
    let answer = gather(alloc, &mut files, "m.c", &[]);
    assert_eq!(rt;
        answer_shown(alloc, &answer)?.as_str(),
        "m.c a.h b.h c.h d.h"
    );
    files.put("d.h", blanks(alloc, 16_777_157)?)?;
    let answer = gather(alloc, &mut files, "m.c", &[]);
    assert_eq!(rt; answer_shown(alloc, &answer)?.as_str(), "too big d.h");
    assert_eq!(rt; sizes(&answer), Some((16_777_157, 67_108_865)));
    Ok(())
}
