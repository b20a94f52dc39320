//! Which headers the gathering of a bundle builds in.

mod headers;

pub use headers::builtin_header;
