//! Types that would be of 2 to the 200th parts if each was visited wherever it stands.
use super::*;

#[test]
fn structures_within_structures_are_laid_out_once(rt: HostRuntime) -> Result<(), Fail> {
    let alloc = rt.alloc();
    let mut types = new_types(alloc);
    let first = vec![in alloc; int()]?;
    assert_eq!(rt; add(alloc, &mut types, false, first)?, bytes(4, 4));
    for number in 0u64..28 {
        let twice = vec![in alloc; compound(number), compound(number)]?;
        let _ = add(alloc, &mut types, false, twice)?;
    }
    assert_eq!(rt; layout(&types, &compound(28)), bytes(1_073_741_824, 4));
    let twice = vec![in alloc; compound(28), compound(28)]?;
    assert_eq!(rt;
        add(alloc, &mut types, false, twice)?,
        None,
        "beyond the limit"
    );
    Ok(())
}

#[test]
fn unions_within_unions_are_laid_out_once(rt: HostRuntime) -> Result<(), Fail> {
    let alloc = rt.alloc();
    let mut types = new_types(alloc);
    let first = vec![in alloc; int()]?;
    let _ = add(alloc, &mut types, true, first)?;
    for number in 0u64..200 {
        let twice = vec![in alloc; compound(number), compound(number)]?;
        let _ = add(alloc, &mut types, true, twice)?;
    }
    assert_eq!(rt; layout(&types, &compound(200)), bytes(4, 4));
    Ok(())
}

// An array of this many dimensions, each of one element.
fn dimensions(alloc: Global, count: u64) -> Result<CType, Fail> {
    let mut t = int();
    for _ in 0..count {
        t = array(alloc, t, Some(1))?;
    }
    Ok(t)
}

// A function with a pointer to a function with a pointer to .. as its parameter.
fn nested_function(alloc: Global, count: u64) -> Result<CType, Fail> {
    let mut t = function_with(alloc, int())?;
    for _ in 0..count {
        let parameter = pointer(alloc, t)?;
        t = function_with(alloc, parameter)?;
    }
    Ok(t)
}

#[test]
fn deep_types_are_compared_level_by_level(rt: HostRuntime) -> Result<(), Fail> {
    let alloc = rt.alloc();
    let types = new_types(alloc);
    let many = dimensions(alloc, 200)?;
    let again = dimensions(alloc, 200)?;
    assert_eq!(rt; layout(&types, &many), bytes(4, 4));
    let deep = nested_function(alloc, 200)?;
    let deep_again = nested_function(alloc, 200)?;
    let deeper = nested_function(alloc, 201)?;
    assert!(rt; !compatible(&types, &deep, &deeper));
    for (a, b) in [(&many, &again), (&deep, &deep_again)] {
        assert!(rt; compatible(&types, a, b));
        if compatible(&types, a, b) {
            let merged = composite(alloc, &types, a, b)?;
            assert!(rt; compatible(&types, &merged, a));
        }
    }
    Ok(())
}

// A pointer to a function with two parameters of the same type, as a typedef name makes it.
fn doubled(alloc: Global, t: &CType) -> Result<CType, Memory> {
    let mut parameters = List::new(alloc);
    parameters.add(copied(alloc, t)?)?;
    parameters.add(copied(alloc, t)?)?;
    let called = function_of(alloc, int(), parameters, false)?;
    Ok(pointer_to(alloc, called)?)
}

// After n doublings a type is made of 2 to the (n + 2)th types, less three.
#[test]
fn types_that_double_are_bounded(rt: HostRuntime) -> Result<(), Fail> {
    let alloc = rt.alloc();
    let types = new_types(alloc);
    let mut t = int();
    let mut doublings = 0;
    for n in 0u64..200 {
        if let Ok(next) = doubled(alloc, &t) {
            t = next;
            doublings = n + 1;
        }
    }
    assert_eq!(rt; doublings, 10);
    assert_eq!(rt; parts(&t, MOST_PARTS), 4_093);
    assert_eq!(rt; parts(&t, 100), 100);
    assert!(rt; compatible(&types, &t, &t));
    let three = array_of(alloc, int(), Some(3))?;
    assert_eq!(rt; layout(&types, &three), bytes(12, 4));
    Ok(())
}
