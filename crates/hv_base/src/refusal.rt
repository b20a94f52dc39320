//! Why a product line is refused.
use crate::{Config, List, Place, Why};

/// Why a product line is refused.
#[derive(Debug, Drop)]
pub enum Refusal {
    /// The variant of a configuration is refused so at a place.
    Fails {
        config: Config,
        place: Place,
        why: Why,
    },
    /// These configurations have pairwise different faces at a place: expansion faces, or, of the
    /// element that starts with the token of that index, element faces.
    TooMany {
        place: Place,
        index: Option<u64>,
        configs: List<Config>,
    },
    /// Memory ran out.
    Memory,
}
