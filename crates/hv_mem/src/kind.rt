//! The undefined events of a run.
ghost use Rattle.std.specs.Prelude.{◌≡◌};
ghost use Rattle.hv_mem.specs.Kinds.{number};

// SAME: undefined events
/// An undefined event of a run. The list is closed, and numbered from 1 in this order.
#[derive(Clone, Copy, Debug, PartialEq, Eq)]
pub enum Kind {
    /// A signed result out of its type's range.
    SignedOverflow,
    /// A division or remainder by zero.
    ZeroDivisor,
    /// A shift by a negative amount or by at least the width.
    ShiftCount,
    /// An access that doesn't lie in its block, or a pointer moved out of it.
    OutsideObject,
    /// An access to a block that has ended.
    DeadObject,
    /// An access by a null pointer, or a null pointer moved by a nonzero amount.
    NullAccess,
    /// A scalar read of a byte that is indeterminate.
    Indeterminate,
    /// An integer read of a pointer's bytes, a pointer read of other bytes than those of one whole
    /// pointer, or pointers of different blocks ordered or subtracted.
    Mixed,
    /// A write to an object that is read-only.
    ReadOnly,
    /// A call through a null pointer, or by an incompatible type.
    BadCall,
    /// The value of a call is used that ended without one.
    NoValue,
    /// A conversion of `printf` that is none, or an argument that doesn't fit it.
    BadFormat,
    /// `free` of anything but null or the start of a live allocation.
    BadFree,
    /// `memcpy` between overlapping ranges.
    Overlap,
    /// An access whose offset in its block is no multiple of the alignment.
    Misaligned,
}

impl Kind {
    /// The event's number, from 1 on.
    pub fn number(self) -> u8
        ensures { result ≡ number self }
    {
        match self {
            Kind::SignedOverflow => 1,
            Kind::ZeroDivisor => 2,
            Kind::ShiftCount => 3,
            Kind::OutsideObject => 4,
            Kind::DeadObject => 5,
            Kind::NullAccess => 6,
            Kind::Indeterminate => 7,
            Kind::Mixed => 8,
            Kind::ReadOnly => 9,
            Kind::BadCall => 10,
            Kind::NoValue => 11,
            Kind::BadFormat => 12,
            Kind::BadFree => 13,
            Kind::Overlap => 14,
            Kind::Misaligned => 15,
        }
    }
}
