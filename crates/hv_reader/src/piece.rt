//! An element's own tokens, with holes.
ghost use Rattle.std.specs.Prelude.{◌≡◌};
ghost use Rattle.hv_cparse.specs.Control as control;
ghost use Rattle.hv_reader.specs.Pieces as own;

use hv_cparse::{Class, class_of};
use hv_toks::Classified;

/// A token of an element's own, or the hole in the place of an element within it. A block's items
/// are one hole.
#[derive(Debug, Drop)]
pub enum Piece {
    Token(Classified),
    Hole,
}

/// What a piece is to the parsing machine's control.
pub(crate) fn class_of_piece(piece: &Piece) -> Class
    ensures { result ≡ control.class_of (own.token_of piece.now).symbol }
{
    match piece {
        Piece::Token(token) => class_of(&token.tok, token.typedef),
        Piece::Hole => Class::Hole,
    }
}
