//! Whether own tokens are an element.
ghost use Rattle.std.specs.Prelude.{◌≡◌, IfOk, IfErr};
ghost use Rattle.hv_ctree.specs.tree.Statements.{Skeleton as PlainSkeleton};
ghost use Rattle.hv_grammar.specs.Grammar as grammar;
ghost use Rattle.hv_cparse.specs.Control as control;
ghost use Rattle.hv_reader.specs.Pieces as own;
ghost use Rattle.hv_reader.specs.working.Given as given;

use crate::piece::{Piece, class_of_piece};
use hv_base::Why;
use hv_cparse::{Control, Limits, ParseFault, Standing};
use hv_grammar::answers_elements_rightly;
use std::alloc::Global;

/// What the machine answers to the pieces, but for the tree.
fn answered(
    alloc: Global,
    limits: Limits,
    standing: Standing,
    pieces: &[Piece],
) -> Result<(), ParseFault>
    ensures { given.IsGiven (control.limits_of limits) (own.standing_in standing)
        (own.tokens_of pieces.now) result }
{
    let mut machine = Control::begin(alloc, standing);
    let mut at: usize = 0;
    for piece in pieces {
        let class = class_of_piece(piece);
        let Ok(refusal) = machine.take(limits, class) else {
            return Err(ParseFault::Memory);
        };
        if let Some(why) = refusal {
            return Err(ParseFault::Plain { at, why });
        }
        at += 1;
    }
    if machine.finish_element() {
        Ok(())
    } else {
        Err(ParseFault::Plain {
            at,
            why: Why::Syntax,
        })
    }
}

/// Whether the pieces are the own tokens of one element that stands so, within the limits
/// (ISO/IEC 9899:1999, 6.7, 6.8, 6.9), or their first refusal. Memory comes from `alloc`.
pub fn check_element(
    alloc: Global,
    limits: Limits,
    standing: Standing,
    pieces: &[Piece],
) -> Result<(), ParseFault>
    ensures derived { IfOk result (λ _. (tree : PlainSkeleton) × grammar.DerivesElement
        (control.limits_of limits) (own.standing_in standing) (own.tokens_of pieces.now)
        tree) }
    ensures refused { IfErr result (λ fault. own.IsRefusal (control.limits_of limits)
        (own.standing_in standing) (own.tokens_of pieces.now) fault) }
{
    // What the machine answers is what the grammar says: the contract rests on this law.
    answers_elements_rightly();
    answered(alloc, limits, standing, pieces)
}
