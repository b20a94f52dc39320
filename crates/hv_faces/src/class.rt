//! What is found of the configurations of one face, and why no more is.
use hv_base::List;
use hv_cond::Cond;

/// The configurations of one face, and what is so in each of them.
#[derive(Debug, Drop)]
pub struct Class<V> {
    /// Those configurations.
    pub cond: Cond,
    pub value: V,
}

/// Why there are no classes.
#[derive(Debug, Drop)]
pub enum ClassesFault {
    /// There are more faces than are allowed. No configurations of two of these conditions have
    /// one face.
    TooMany { conds: List<Cond> },
    /// Out of memory.
    Memory,
}
