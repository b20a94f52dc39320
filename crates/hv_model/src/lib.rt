//! Feature models: the options of a product line and the rules on them, model files, and
//! configurations.
#![tactic(auto)]

mod code;
mod conds;
mod configs;
mod diagram;
mod faults;
mod force;
mod join;
mod model;
mod model_line;
mod name;
mod names;
mod order;
mod parser;
mod rules;
mod scan;
mod truths;
mod walk;

pub use configs::{print_config, read_config};
pub use diagram::{ModelDiagram, least_valid, read_diagram, read_model, valid_cond};
pub use faults::{ConfigFault, ModelFault, ModelKind, ModelRefusal};
pub use model::{Model, is_valid};
pub use scan::skip_blanks;

// SAME: reserved names
/// The words that name no option: the keywords, and the names that preprocessing keeps for itself
/// (ISO/IEC 9899:1999, 6.4.1, 6.10.8).
pub const RESERVED: [&str; 48] = [
    "auto",
    "break",
    "case",
    "char",
    "const",
    "continue",
    "default",
    "do",
    "double",
    "else",
    "enum",
    "extern",
    "float",
    "for",
    "goto",
    "if",
    "inline",
    "int",
    "long",
    "register",
    "restrict",
    "return",
    "short",
    "signed",
    "sizeof",
    "static",
    "struct",
    "switch",
    "typedef",
    "union",
    "unsigned",
    "void",
    "volatile",
    "while",
    "_Bool",
    "_Complex",
    "_Imaginary",
    "defined",
    "__VA_ARGS__",
    "__STDC__",
    "__STDC_HOSTED__",
    "__STDC_VERSION__",
    "__FILE__",
    "__LINE__",
    "__DATE__",
    "__TIME__",
    "_Pragma",
    "__func__",
];

#[cfg(test)]
mod tests;
