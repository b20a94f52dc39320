//! What ends a run of tokens, and what is proved of the expansions in it.
ghost use Rattle.hv_plain.specs.episode.Laws.{FaceDecides};

/// What ends a run of preprocessing tokens in which macros are expanded (ISO/IEC 9899:1999, 6.10).
#[derive(Clone, Copy, Debug, PartialEq, Eq)]
pub enum RunEnd {
    /// A directive, which no invocation of a macro crosses.
    Directive,
    /// The end of a file.
    FileEnd,
    /// The end of an `#if` or `#elif` line.
    Line,
}

/// Does nothing. Its contract says that the events of an episode decide its result.
pub fn face_decides()
    ensures { FaceDecides }
{}
