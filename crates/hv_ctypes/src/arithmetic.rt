//! The common type of two operands.
ghost use Rattle.std.specs.Prelude.{◌≡◌, ◌≤◌};
ghost use Rattle.hv_ctree.specs.types.Kinds.{kind_of_constant, rank};
ghost use Rattle.hv_ctree.specs.types.Conversions as conversions;

use hv_base::IntType;

/// The type in which two integer operands are computed (ISO/IEC 9899:1999, 6.3.1.8).
pub fn usual(a: IntType, b: IntType) -> IntType
    ensures value { kind_of_constant result
        ≡ conversions.usual (kind_of_constant a) (kind_of_constant b) }
    ensures commutes { kind_of_constant result
        ≡ conversions.usual (kind_of_constant b) (kind_of_constant a) }
    ensures left { rank (kind_of_constant a) ≤ rank (kind_of_constant result) }
    ensures right { rank (kind_of_constant b) ≤ rank (kind_of_constant result) }
{
    match (a, b) {
        (IntType::ULongLong, _) | (_, IntType::ULongLong) => IntType::ULongLong,
        (IntType::LongLong, IntType::ULong) | (IntType::ULong, IntType::LongLong) => {
            IntType::ULongLong
        }
        (IntType::LongLong, _) | (_, IntType::LongLong) => IntType::LongLong,
        (IntType::ULong, _) | (_, IntType::ULong) => IntType::ULong,
        (IntType::Long, _) | (_, IntType::Long) => IntType::Long,
        (IntType::UInt, _) | (_, IntType::UInt) => IntType::UInt,
        (IntType::Int, IntType::Int) => IntType::Int,
    }
}
