//! The signs and words of the grammar's operators, qualifiers and specifiers.
ghost use Rattle.std.specs.Prelude.{◌≡◌};
ghost use Rattle.hv_grammar.specs.Symbols as symbols;

use hv_base::{Keyword, Punct};
use hv_ctree::{AssignmentOperator, StorageClass, StructOrUnion, TypeQualifier, UnaryOperator};

/// The sign of a unary operator (6.5.3).
pub(crate) fn unary_sign(operator: UnaryOperator) -> Punct
    ensures { symbols.sign result ≡ symbols.unary_sign operator }
{
    match operator {
        UnaryOperator::Address => Punct::And,
        UnaryOperator::Indirection => Punct::Star,
        UnaryOperator::Plus => Punct::Plus,
        UnaryOperator::Minus => Punct::Minus,
        UnaryOperator::Complement => Punct::Tilde,
        UnaryOperator::Not => Punct::Not,
    }
}

/// The sign of an assignment (6.5.16).
pub(crate) fn assignment_sign(operator: AssignmentOperator) -> Punct
    ensures { symbols.sign result ≡ symbols.assignment_sign operator }
{
    match operator {
        AssignmentOperator::Plain => Punct::Equal,
        AssignmentOperator::Multiply => Punct::StarEqual,
        AssignmentOperator::Divide => Punct::SlashEqual,
        AssignmentOperator::Remainder => Punct::PercentEqual,
        AssignmentOperator::Add => Punct::PlusEqual,
        AssignmentOperator::Subtract => Punct::MinusEqual,
        AssignmentOperator::ShiftLeft => Punct::LeftShiftEqual,
        AssignmentOperator::ShiftRight => Punct::RightShiftEqual,
        AssignmentOperator::And => Punct::AndEqual,
        AssignmentOperator::ExclusiveOr => Punct::CaretEqual,
        AssignmentOperator::Or => Punct::OrEqual,
    }
}

/// The word of a qualifier (6.7.3).
pub(crate) fn qualifier_word(qualifier: TypeQualifier) -> Keyword
    ensures { symbols.keyword result ≡ symbols.qualifier_word qualifier }
{
    match qualifier {
        TypeQualifier::Const => Keyword::Const,
        TypeQualifier::Restrict => Keyword::Restrict,
    }
}

/// The word of a storage class (6.7.1).
pub(crate) fn storage_word(storage: StorageClass) -> Keyword
    ensures { symbols.keyword result ≡ symbols.storage_word storage }
{
    match storage {
        StorageClass::Typedef => Keyword::Typedef,
        StorageClass::Extern => Keyword::Extern,
        StorageClass::Static => Keyword::Static,
        StorageClass::Auto => Keyword::Auto,
        StorageClass::Register => Keyword::Register,
    }
}

/// `struct` or `union` (6.7.2.1).
pub(crate) fn compound_word(kind: StructOrUnion) -> Keyword
    ensures { symbols.keyword result ≡ symbols.compound_word kind }
{
    match kind {
        StructOrUnion::Struct => Keyword::Struct,
        StructOrUnion::Union => Keyword::Union,
    }
}
