//! Tables of structures and unions with their layouts.
use super::*;

#[test]
fn members_stand_at_the_next_multiple_of_their_alignment(rt: HostRuntime) -> Result<(), Fail> {
    let alloc = rt.alloc();
    let mut types = new_types(alloc);
    let char_int_short = vec![in alloc; of(IntKind::Char), int(), of(IntKind::Short)]?;
    let first = add(alloc, &mut types, false, char_int_short)?;
    let chars = array(alloc, of(IntKind::Char), Some(5))?;
    let chars_or_int = vec![in alloc; chars, int()]?;
    let second = add(alloc, &mut types, true, chars_or_int)?;
    let nested = vec![in alloc;
        of(IntKind::Boolean),
        compound(0),
        compound(1),
        pointer(alloc, compound(2))?,
    ]?;
    let third = add(alloc, &mut types, false, nested)?;
    assert_eq!(rt; first, bytes(12, 4), "struct {{ char; int; short; }}");
    assert_eq!(rt; second, bytes(8, 4), "union {{ char[5]; int; }}");
    assert_eq!(rt;
        third,
        bytes(32, 8),
        "both after a _Bool, and a pointer to itself"
    );
    assert_eq!(rt; layout(&types, &compound(2)), third);
    let three = array(alloc, compound(0), Some(3))?;
    assert_eq!(rt;
        layout(&types, &three),
        bytes(36, 4),
        "an array has no padding of its own"
    );
    if layout(&types, &three) == bytes(36, 4) {
        assert_eq!(rt; next_offset(5, 4), 8);
    }
    Ok(())
}

#[test]
fn members_have_offsets(rt: HostRuntime) -> Result<(), Fail> {
    let alloc = rt.alloc();
    let mut types = new_types(alloc);
    let char_int_short = vec![in alloc; of(IntKind::Char), int(), of(IntKind::Short)]?;
    let _ = add(alloc, &mut types, false, char_int_short)?;
    let long_or_char = vec![in alloc; of(IntKind::Long), of(IntKind::Char)]?;
    let _ = add(alloc, &mut types, true, long_or_char)?;
    let _ = declare_compound(&mut types, false, None)?;
    let rows = [(0, Some(0), Some(4), Some(8)), (1, Some(0), Some(0), None)];
    for (number, first, second, third) in rows {
        match member_offsets(alloc, &types, number)? {
            Some(offsets) => {
                assert_eq!(rt; offsets.get(0).copied(), first);
                assert_eq!(rt; offsets.get(1).copied(), second);
                assert_eq!(rt; offsets.get(2).copied(), third);
            }
            None => assert!(rt; false, "a complete type has offsets"),
        }
    }
    assert!(rt;
        member_offsets(alloc, &types, 2)?.is_none(),
        "an incomplete structure"
    );
    assert!(rt; member_offsets(alloc, &types, 3)?.is_none(), "no structure");
    Ok(())
}

#[test]
fn incomplete_types_have_no_layout(rt: HostRuntime) -> Result<(), Fail> {
    let alloc = rt.alloc();
    let mut types = new_types(alloc);
    let itself = vec![in alloc; int(), compound(0)]?;
    let itself = add(alloc, &mut types, false, itself)?;
    let empty = add(alloc, &mut types, false, Vec::new(alloc))?;
    let huge = vec![in alloc; array(alloc, int(), Some(268_435_456))?, of(IntKind::Char)]?;
    let huge = add(alloc, &mut types, false, huge)?;
    assert_eq!(rt; itself, None, "a structure that holds itself");
    assert_eq!(rt; empty, None, "a structure without members");
    assert_eq!(rt; huge, None, "a structure beyond the limit");
    let large = array(alloc, int(), Some(268_435_456))?;
    let too_large = array(alloc, int(), Some(268_435_457))?;
    let unknown = array(alloc, int(), None)?;
    let called = function_with(alloc, int())?;
    assert_eq!(rt; layout(&types, &compound(0)), None);
    assert_eq!(rt; layout(&types, &compound(9)), None, "no structure");
    assert_eq!(rt; layout(&types, &void()), None);
    assert_eq!(rt; layout(&types, &unknown), None);
    assert_eq!(rt; layout(&types, &called), None);
    assert_eq!(rt; layout(&types, &large), bytes(1_073_741_824, 4));
    assert_eq!(rt; layout(&types, &too_large), None);
    Ok(())
}

#[test]
fn a_structure_gets_its_members_once(rt: HostRuntime) -> Result<(), Fail> {
    let alloc = rt.alloc();
    let mut types = new_types(alloc);
    let members = vec![in alloc; int()]?;
    assert_eq!(rt; add(alloc, &mut types, false, members)?, bytes(4, 4));
    assert_eq!(rt; complete_compound(&mut types, 0, List::new(alloc)), None);
    assert_eq!(rt; complete_compound(&mut types, 1, List::new(alloc)), None);
    assert_eq!(rt; layout(&types, &compound(0)), bytes(4, 4));
    Ok(())
}

#[test]
fn scalars_are_aligned_to_their_sizes(rt: HostRuntime) -> Result<(), Fail> {
    let alloc = rt.alloc();
    let types = new_types(alloc);
    let to_void = pointer(alloc, void())?;
    assert_eq!(rt; layout(&types, &to_void), bytes(8, 8));
    assert_eq!(rt; layout(&types, &enumeration(0)), bytes(4, 4));
    assert_eq!(rt; size_of_kind(IntKind::Boolean), 1);
    Ok(())
}

#[test]
fn complete_types_have_sizes(rt: HostRuntime) {
    let types = new_types(rt.alloc());
    let short = CType {
        constant: false,
        shape: Shape::Integer(IntKind::Short),
    };
    assert_eq!(rt; size_of(&types, &short), 2);
    assert_eq!(rt; align_of(&types, &short), 2);
}
