//! The limits of Hercules. Definitions cite these constants.

/// The most options of a model.
pub const MOST_OPTIONS: usize = 256;

/// The most bytes of one file.
pub const MOST_FILE_BYTES: u64 = 16_777_216;

/// The most bytes of all files of a bundle together.
pub const MOST_BUNDLE_BYTES: u64 = 67_108_864;

/// The most names in a bundle.
pub const MOST_NAMES: u32 = 4_000_000_000;

/// The most include folders.
pub const MOST_FOLDERS: usize = 50;

/// The most includes that are open at a place.
pub const MOST_INCLUDES: usize = 64;

/// The most conditional groups of a file that are open at a place.
pub const MOST_GROUPS: usize = 256;

/// The most statements that are open at a place, a function's body counting as one.
pub const MOST_STATEMENTS: usize = 256;

/// The most brackets and prefixes of an expression, declarator or initialiser that are open at a
/// place.
pub const MOST_BRACKETS: usize = 256;

/// The most operators of an expression that stands in no other.
pub const MOST_OPERATORS: usize = 4_096;

/// The most events of an episode.
pub const MOST_EVENTS: usize = 65_536;

/// The most faces of a place, and of a start.
pub const MOST_FACES: usize = 1_024;

/// The most bytes of an object, of an array, structure or union type, and of an allocation.
pub const MOST_OBJECT_BYTES: u64 = 1_073_741_824;

/// The number of the file in which the options are defined, option i at the offset i.
pub const OPTIONS_FILE: u32 = 4_294_967_295;

/// The number of the file in which the predefined macros are defined, at the offsets 0 to 2.
pub const PREDEFINED_FILE: u32 = 4_294_967_294;

/// The number of the first built-in header; that of row i of the table of headers is i more.
pub const FIRST_HEADER_FILE: u32 = 4_294_967_000;
