//! An episode under all configurations.
use hv_base::{List, Place};
use hv_cond::Cond;
use hv_toks::PpTok;

/// What an episode gives in the configurations of one of its expansion faces.
#[derive(Debug, Drop)]
pub struct Given {
    /// Those configurations.
    pub cond: Cond,
    /// The place of the episode's first token.
    pub place: Place,
    /// The number of the face: of the entries of one place, two have one number exactly where they
    /// have one face.
    pub face: u32,
    /// The tokens that it gives to the translation unit: none where it belongs to a controlling
    /// line, or is refused.
    pub tokens: List<PpTok>,
}
