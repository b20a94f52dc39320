//! Which names a source may use.

/// Whether identifiers that begin with `hv_` are tokens. Hercules keeps them for itself in sources,
/// and its own output has them.
#[derive(Clone, Copy, Debug, PartialEq, Eq)]
pub enum ReservedNames {
    Allowed,
    Refused,
}
