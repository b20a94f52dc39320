//! Examples of the standard, as tables. A type is written from the inside out, a letter a step.
use super::*;

// What a letter makes of the type before it.
fn step(alloc: Global, t: CType, letter: u8) -> Result<CType, Fail> {
    match letter {
        b'i' => Ok(int()),
        b'u' => Ok(of(IntKind::UnsignedInt)),
        b'l' => Ok(of(IntKind::Long)),
        b'q' => Ok(of(IntKind::LongLong)),
        b'c' => Ok(of(IntKind::Char)),
        b'C' => Ok(of(IntKind::SignedChar)),
        b'e' => Ok(enumeration(0)),
        b'E' => Ok(enumeration(1)),
        b's' => Ok(compound(0)),
        b'S' => Ok(compound(1)),
        // a const type, a pointer, arrays of 3, of 4 and of unknown length
        b'k' => Ok(constant(t.shape)),
        b'*' => pointer(alloc, t),
        b'3' => array(alloc, t, Some(3)),
        b'4' => array(alloc, t, Some(4)),
        b'?' => array(alloc, t, None),
        // a function that gives the type, and one of `int` with it as its parameter, and `...`
        b'0' => function(alloc, t, Vec::new(alloc), false),
        b'1' => function_with(alloc, t),
        b'v' => {
            let parameters = vec![in alloc; t]?;
            function(alloc, int(), parameters, true)
        }
        _ => Ok(void()),
    }
}

fn described(alloc: Global, letters: &str) -> Result<CType, Fail> {
    let mut t = void();
    for letter in letters.bytes() {
        t = step(alloc, t, letter)?;
    }
    Ok(t)
}

fn are_compatible(alloc: Global, a: &str, b: &str) -> Result<bool, Fail> {
    let a = described(alloc, a)?;
    let b = described(alloc, b)?;
    Ok(compatible(&new_types(alloc), &a, &b))
}

#[test]
fn types_are_compatible_as_the_standard_says(rt: HostRuntime) -> Result<(), Fail> {
    let alloc = rt.alloc();
    let table = [
        // 6.2.5: the character types and the types of one size are distinct
        ("i", "i", true),
        ("i", "l", false),
        ("l", "q", false),
        ("c", "C", false),
        ("i", "u", false),
        (" ", " ", true),
        // 6.7.2.2: an enumeration is compatible with its integer type
        ("e", "i", true),
        ("e", "u", false),
        ("e", "e", true),
        ("e", "E", false),
        // 6.7.7: a structure is compatible with itself by any of its names, and with no other
        ("s", "s", true),
        ("s", "S", false),
        ("s", "i", false),
        // 6.7.3, 6.7.5.1: qualifiers, and where they stand
        ("ik", "i", false),
        ("ik*", "i*", false),
        ("ik*", "i*k", false),
        ("i*k", "i*", false),
        // 6.7.5.2: arrays; an array isn't a pointer, and within a type lengths are known in both
        ("i3", "i3", true),
        ("i3", "i4", false),
        ("i3", "i?", true),
        ("i?", "i*", false),
        ("i3*", "i?*", false),
        // 6.2.7, 6.7.5.3: functions
        ("i1", "ik1", true),
        ("i1", "e1", true),
        ("i1", "i0", false),
        ("i1", "iv", false),
        ("i0", "l0", false),
        ("i1", "i*", false),
        ("i3*1", "i3*1", true),
        ("i3*1", "i?*1", false),
    ];
    for (a, b, expected) in table {
        assert_eq!(rt; are_compatible(alloc, a, b)?, expected);
        assert_eq!(rt; are_compatible(alloc, b, a)?, expected);
    }
    Ok(())
}

// 6.7.6: each of its type names is compatible with itself alone.
#[test]
fn type_names_are_compatible_with_themselves_alone(rt: HostRuntime) -> Result<(), Fail> {
    let alloc = rt.alloc();
    let names = ["i", "i*", "i*3", "i3*", "i*0", "i0*", "uv*k?"];
    for a in names {
        for b in names {
            assert_eq!(rt; are_compatible(alloc, a, b)?, a == b);
        }
    }
    Ok(())
}

// Whether the composite of two types is the expected one, with all its lengths.
fn is_composite(alloc: Global, a: &str, b: &str, expected: &str) -> Result<bool, Fail> {
    let types = new_types(alloc);
    let a = described(alloc, a)?;
    let b = described(alloc, b)?;
    if !compatible(&types, &a, &b) {
        return Ok(false);
    }
    let merged = pointer(alloc, composite(alloc, &types, &a, &b)?)?;
    let expected = pointer(alloc, described(alloc, expected)?)?;
    Ok(compatible(&types, &merged, &expected))
}

#[test]
fn a_composite_is_the_one_of_the_standard(rt: HostRuntime) -> Result<(), Fail> {
    let alloc = rt.alloc();
    let table = [
        ("i", "i", "i"),
        // 6.2.7: the length that either knows
        ("i3", "i?", "i3"),
        ("i?", "i3", "i3"),
        ("i?", "i?", "i?"),
        ("i3?", "i34", "i34"),
        // 6.7.5.3: a parameter without its qualifier
        ("ik1", "i1", "i1"),
        ("i1", "ik1", "i1"),
        ("i3*1", "i3*k1", "i3*1"),
        // 6.7.2.2: of an enumeration and `int` the first
        ("e", "i", "e"),
        ("e0", "i0", "e0"),
    ];
    for (a, b, expected) in table {
        assert!(rt; is_composite(alloc, a, b, expected)?);
    }
    Ok(())
}
