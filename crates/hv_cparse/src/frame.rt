//! What stands open, and where the machine is, without what was read.
ghost use Rattle.std.specs.Prelude.{◌≡◌, IfOk};
ghost use Rattle.hv_grammar.specs.Symbols as symbols;
ghost use Rattle.hv_cparse.specs.working.Tables as tables;

use crate::part::{Clause, Fixed, Part, Setting, Standing};
use hv_base::{BinaryOperator, Memory};

/// What specifiers stand in.
#[derive(Clone, Copy, Debug, PartialEq, Eq)]
pub enum Owner {
    TypeName,
    Parameter,
    Member,
    Declaration,
}

/// Whether a declarator has a name, has none, or may have one.
#[derive(Clone, Copy, Debug, PartialEq, Eq)]
pub enum Mode {
    Named,
    Abstract,
    Either,
}

/// A production that was begun, without what was read of it. Operators of one level are alike, and
/// so are all assignments. The numbers of declarators are those of their `*`s.
#[derive(Clone, Copy, Debug, PartialEq, Eq)]
pub enum Frame {
    /// `(`
    Parenthesis,
    /// `(` directly after `sizeof`, which may belong to a type
    AfterSizeof,
    Subscript,
    /// Before the first argument, where `)` may follow.
    Callee,
    Calling,
    Prefix,
    Unary,
    Sizeof,
    SizeofType,
    CastType,
    Cast,
    /// The right operand of an operator that makes expressions of the level.
    Binary(u8),
    Then,
    Else,
    Assign,
    Comma,
    /// Specifiers before a type specifier with braces or a tag.
    Specified(Owner),
    /// The body of a structure or union; whether it has a member.
    Body(bool),
    /// The list of an enumeration; whether it has a constant.
    Listing(bool),
    Valued,
    /// Specifiers whose declarator is read.
    Owned(Owner),
    OwnedMembers,
    Group(Mode, usize),
    Length(Mode, usize),
    Parameters(Mode, usize),
    /// Initialisers in braces; whether there is one.
    Braces(bool),
    /// `[` of a designator
    Index,
    /// A designation, or none, whose initialiser is read.
    Designated,
    /// An element up to a declaration.
    Declares(Setting),
    /// Specifiers whose declarators are read; whether one was read.
    Declaring(bool),
    /// A declarator and the `=` after it.
    Initialized,
    /// A statement up to an expression.
    Statement(Part),
    /// A terminal that is still to come.
    Terminal(Fixed),
}

/// Where the machine is. The numbers of declarators are those of their `*`s.
#[derive(Clone, Copy, Debug, PartialEq, Eq)]
pub enum At {
    /// Before an operand.
    Want,
    /// After an operand of the level.
    Have(u8),
    /// After `.` or `->`.
    Selecting,
    /// After specifiers; whether a type specifier is among them.
    Words(Owner, bool),
    AfterCompound,
    AfterTag,
    AfterEnum,
    AfterEnumTag,
    MemberStart,
    EnumeratorStart,
    AfterEnumerator,
    /// Before the middle of a declarator.
    Pointing(Mode, usize),
    /// After a `(` there.
    Opened(Mode, usize),
    /// After the middle of a declarator.
    Direct(Mode, usize),
    /// After a `[` there.
    Bracket(Mode, usize),
    /// After a `(` there.
    ParametersStart(Mode, usize),
    /// After a comma among parameters.
    ParameterNext,
    AfterEllipsis,
    /// Before an initialiser.
    InitializerStart,
    /// After a `{` or a comma of initialisers.
    BracesStart,
    /// After the `.` of a designator.
    AfterDot,
    AfterDesignator,
    /// After an initialiser in braces.
    AfterInitializer,
    /// Before an element.
    Start(Standing),
    /// Before the terminals that are still to come; they end the element.
    Awaiting,
    /// Before the terminals that are still to come, and then the expression.
    Opening(Part),
    /// Before the statement of an `if`.
    AfterIf,
    /// After it.
    MayElse,
    /// After `for`.
    ForOpening,
    /// After its `(`.
    ForStart,
    /// Before an expression that may be missing.
    Before(Clause),
}

/// Where a token stands: in no expression, in one, or as one of the operators that are counted.
#[derive(Clone, Copy)]
pub(crate) enum Role {
    Outside,
    Inside,
    Operator,
}

/// What is known of a token that was taken: how many brackets and prefixes are open at it, where it
/// stands, and whether the `(` before it counts as an operator.
#[derive(Clone, Copy)]
pub(crate) struct Mark {
    pub(crate) depth: usize,
    pub(crate) role: Role,
    pub(crate) late: bool,
}

/// So many and more of them. Their number is below that of the tokens, so it can't be too large
/// before memory runs out.
#[tactic(auto, using(crate::proofs::Depths::many_sum))]
pub(crate) fn more(count: usize, by: usize) -> Result<usize, Memory>
    ensures { IfOk result (λ sum. sum ≡ tables.many by count) }
{
    match count.checked_add(by) {
        Some(sum) => Ok(sum),
        None => Err(Memory),
    }
}

/// The level of the expressions that the operator makes (6.5.5 to 6.5.14).
pub(crate) fn level(op: BinaryOperator) -> u8
    ensures { result ≡ symbols.level op }
{
    match op {
        BinaryOperator::Multiply | BinaryOperator::Divide | BinaryOperator::Remainder => 12,
        BinaryOperator::Add | BinaryOperator::Subtract => 11,
        BinaryOperator::ShiftLeft | BinaryOperator::ShiftRight => 10,
        BinaryOperator::Less
        | BinaryOperator::Greater
        | BinaryOperator::LessEqual
        | BinaryOperator::GreaterEqual => 9,
        BinaryOperator::Equal | BinaryOperator::NotEqual => 8,
        BinaryOperator::And => 7,
        BinaryOperator::ExclusiveOr => 6,
        BinaryOperator::Or => 5,
        BinaryOperator::LogicalAnd => 4,
        BinaryOperator::LogicalOr => 3,
    }
}

impl Frame {
    /// The level that is wanted in the frame; 16 where no expression is.
    pub(crate) fn hole(self) -> u16
        ensures { result ≡ tables.hole self }
    {
        match self {
            Frame::Parenthesis | Frame::AfterSizeof | Frame::Subscript | Frame::Then => 0,
            Frame::Callee | Frame::Calling | Frame::Length(_, _) => 1,
            Frame::Assign | Frame::Comma => 1,
            Frame::Designated | Frame::Initialized => 1,
            Frame::Else | Frame::Valued | Frame::Index => 2,
            Frame::Statement(part) => part.wanted(),
            Frame::Binary(level) => u16::from(level) + 1,
            Frame::Unary | Frame::Cast => 13,
            Frame::Prefix | Frame::Sizeof => 14,
            _ => 16,
        }
    }

    /// The level of what the frame becomes; 16 where it is no expression.
    pub(crate) fn made(self) -> u8
        ensures { result ≡ tables.made self }
    {
        match self {
            Frame::Parenthesis | Frame::AfterSizeof | Frame::Subscript => 15,
            Frame::Callee | Frame::Calling => 15,
            Frame::Prefix | Frame::Unary | Frame::Sizeof | Frame::SizeofType => 14,
            Frame::CastType | Frame::Cast => 13,
            Frame::Binary(level) => level,
            Frame::Then | Frame::Else => 2,
            Frame::Assign => 1,
            Frame::Comma => 0,
            _ => 16,
        }
    }

    /// Whether the frame ends before a token whose left operand is of the level.
    pub(crate) fn ends(self, level: u8) -> bool
        ensures { result ≡ tables.ends level self }
    {
        match self {
            Frame::Prefix
            | Frame::Unary
            | Frame::Sizeof
            | Frame::Cast
            | Frame::Binary(_)
            | Frame::Else
            | Frame::Assign
            | Frame::Comma => level <= self.made(),
            _ => false,
        }
    }

    /// How many are open in the frame, where so many are open around it.
    pub(crate) fn weigh(self, around: usize) -> Result<usize, Memory>
        ensures { IfOk result (λ depth. depth ≡ tables.weigh self around) }
    {
        match self {
            Frame::Binary(_) | Frame::Comma | Frame::Specified(_) | Frame::Valued => Ok(around),
            Frame::Owned(_) | Frame::OwnedMembers => Ok(around),
            Frame::Designated | Frame::Declares(_) | Frame::Declaring(_) => Ok(around),
            Frame::Initialized | Frame::Statement(_) | Frame::Terminal(_) => Ok(around),
            Frame::SizeofType => more(around, 2),
            Frame::Listing(_) if around == 0 => Ok(0),
            Frame::Group(_, stars) | Frame::Length(_, stars) | Frame::Parameters(_, stars) => {
                more(more(around, stars)?, 1)
            }
            _ => more(around, 1),
        }
    }

    /// How many are open around the frame, where so many are open in it.
    pub(crate) fn around(self, within: usize) -> usize
        ensures { result ≡ tables.around self within }
    {
        match self {
            Frame::Binary(_) | Frame::Comma | Frame::Specified(_) | Frame::Valued => within,
            Frame::Owned(_) | Frame::OwnedMembers => within,
            Frame::Designated | Frame::Declares(_) | Frame::Declaring(_) => within,
            Frame::Initialized | Frame::Statement(_) | Frame::Terminal(_) => within,
            Frame::SizeofType => within.saturating_sub(2),
            Frame::Group(_, stars) | Frame::Length(_, stars) | Frame::Parameters(_, stars) => {
                within.saturating_sub(1).saturating_sub(stars)
            }
            _ => within.saturating_sub(1),
        }
    }

    /// How many type names are open around the frame, where so many are open in it.
    pub(crate) fn types_around(self, within: usize) -> usize
        ensures { result ≡ tables.types_around self within }
    {
        if self.is_type() {
            within.saturating_sub(1)
        } else {
            within
        }
    }

    /// Whether a type's name stands in the frame, and so in an expression.
    pub(crate) fn is_type(self) -> bool
        ensures { result ≡ tables.is_type self }
    {
        matches!(self, Frame::SizeofType | Frame::CastType)
    }
}
