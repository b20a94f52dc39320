//! The commands, with what their words give.

/// Where a product line is read from.
#[derive(Debug, Drop)]
pub struct Sources {
    /// The name of the model file; without one there are no options.
    pub model: Option<String>,
    /// The include folders, in the order in which a header is looked for.
    pub dirs: Vec<String>,
    /// The name of the main file.
    pub file: String,
}

/// A command of the program.
#[derive(Debug, Drop)]
pub enum Command {
    /// `encode`: writes the metaproduct.
    Encode(Sources),
    /// `variant`: writes the tokens of the variant of the configuration that this text gives.
    Variant {
        sources: Sources,
        config: String,
    },
    /// `options`: writes a definition of each option variable, for the configuration that this text
    /// gives.
    Options {
        model: Option<String>,
        config: String,
    },
}
