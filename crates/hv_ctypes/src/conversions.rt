//! Values converted to integer types.
ghost use Rattle.std.specs.Prelude.{◌≡◌, ◌+◌, ◌-◌, ◌/◌, ◌<◌, ◌≤◌, ◌^◌, IsTrue, IsSome, IfSome, if◌then◌else◌, nat_lt};
ghost use Rattle.hv_ctree.specs.types.Erasure.{type_of};
ghost use Rattle.hv_ctree.specs.types.Conversions.{converted, kind_in, has};

use hv_ctree::{CType, IntKind, Shape};

/// The integer type that a type is or is represented by; an enumeration is `int`.
pub fn integer_kind(t: &CType) -> Option<IntKind>
    ensures { result ≡ kind_in (type_of t.now) }
{
    match &t.shape {
        Shape::Integer(kind) => Some(*kind),
        Shape::Enumeration { .. } => Some(IntKind::Int),
        Shape::Void
        | Shape::Compound { .. }
        | Shape::Pointer(_)
        | Shape::Array { .. }
        | Shape::Function { .. } => None,
    }
}

/// A value converted to an integer type (ISO/IEC 9899:1999, 6.3.1.2 and 6.3.1.3), wrapping where
/// the type doesn't have it. Values are 64 bits in two's complement, a negative one with its sign
/// in all of them.
pub fn convert_to_kind(value: u64, kind: IntKind) -> u64
    ensures value { result ≡ converted kind value }
    ensures keeps { IsTrue (has kind value) → result ≡ value }
    ensures within { IsTrue (has kind result) }
{
    match kind {
        IntKind::Boolean => { if value == 0 { 0 } else { 1 } }
        IntKind::Char | IntKind::SignedChar => sign_extended(value % 0x100, 0x100),
        IntKind::UnsignedChar => value % 0x100,
        IntKind::Short => sign_extended(value % 0x1_0000, 0x1_0000),
        IntKind::UnsignedShort => value % 0x1_0000,
        IntKind::Int => sign_extended(value % 0x1_0000_0000, 0x1_0000_0000),
        IntKind::UnsignedInt => value % 0x1_0000_0000,
        IntKind::Long | IntKind::UnsignedLong | IntKind::LongLong | IntKind::UnsignedLongLong =>
            value,
    }
}

// The bits of a signed value that has this remainder modulo `count`, the number of the type's
// values.
fn sign_extended(remainder: u64, count: u64) -> u64
    requires below { remainder < count }
    requires small { count ≤ 2 ^ 32 }
    ensures { result
        ≡ (if nat_lt remainder (count / 2)
        then remainder
        else remainder + (2 ^ 64 - count)) }
{
    if remainder < count / 2 {
        remainder
    } else {
        remainder + (u64::MAX - count + 1)
    }
}

/// A value converted to an integer type, an enumeration among them.
pub fn convert(value: u64, to: &CType) -> u64
    requires { IsSome (kind_in (type_of to.now)) }
    ensures value { IfSome (kind_in (type_of to.now)) (λ kind. result ≡ converted kind value) }
    ensures keeps { IfSome (kind_in (type_of to.now)) (λ kind.
        IsTrue (has kind value) → result ≡ value) }
    ensures within { IfSome (kind_in (type_of to.now)) (λ kind. IsTrue (has kind result)) }
{
    match integer_kind(to) {
        Some(kind) => convert_to_kind(value, kind),
        None => unreachable!(),
    }
}
