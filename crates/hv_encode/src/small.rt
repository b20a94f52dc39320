//! Small sources and their metaproducts. This folder ends once every source is encoded by its
//! grammar.
mod body;
mod encode;
mod group;
mod lift;
mod line;
mod print;
mod program;
mod source;
mod trim;

pub use encode::encode_small;
