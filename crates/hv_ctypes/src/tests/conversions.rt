//! Operands of each pair of types, and values that wrap.
use super::*;
use hv_base::IntType;

#[test]
fn operands_are_converted_to_a_common_type(rt: HostRuntime) {
    let table = [
        (IntType::Int, IntType::Int, IntType::Int),
        (IntType::Int, IntType::UInt, IntType::UInt),
        (IntType::UInt, IntType::Long, IntType::Long),
        (IntType::ULong, IntType::Long, IntType::ULong),
        (IntType::LongLong, IntType::ULong, IntType::ULongLong),
        (IntType::LongLong, IntType::UInt, IntType::LongLong),
    ];
    for (a, b, expected) in table {
        assert_eq!(rt; usual(a, b), expected);
        assert_eq!(rt; usual(b, a), expected);
    }
}

#[test]
fn values_wrap_to_the_types_that_lack_them(rt: HostRuntime) {
    let minus_one = u64::MAX;
    let table = [
        (300, IntKind::Char, 44),
        (200, IntKind::Char, u64::MAX - 55),
        (minus_one, IntKind::UnsignedChar, 255),
        (minus_one, IntKind::Short, minus_one),
        (minus_one, IntKind::UnsignedInt, 0xffff_ffff),
        (0x8000_0000, IntKind::Int, 0xffff_ffff_8000_0000),
        (256, IntKind::Boolean, 1),
        (0, IntKind::Boolean, 0),
        (minus_one, IntKind::UnsignedLong, minus_one),
    ];
    for (value, kind, expected) in table {
        assert_eq!(rt; convert_to_kind(value, kind), expected);
        let to = CType {
            constant: false,
            shape: Shape::Integer(kind),
        };
        assert_eq!(rt; convert(value, &to), expected);
        assert_eq!(rt; integer_kind(&to), Some(kind));
    }
}
