//! How much may be open, and how many operators an expression may have.
ghost use Rattle.std.specs.Prelude.{◌≡◌};
ghost use Rattle.hv_grammar.specs.Refusal as refusal;
ghost use Rattle.hv_cparse.specs.Control as control;

use hv_base::{MOST_BRACKETS, MOST_OPERATORS, MOST_STATEMENTS};

/// How many brackets and prefixes may be open at a token, how many operators an expression that
/// stands in no other may have, and how many statements may be open.
#[derive(Clone, Copy, Debug, PartialEq, Eq)]
pub struct Limits {
    pub brackets: usize,
    pub operators: usize,
    pub statements: usize,
}

impl Limits {
    /// The limits on a source.
    pub fn of_source() -> Limits
        ensures { control.limits_of result ≡ refusal.source_limits }
    {
        Limits {
            brackets: MOST_BRACKETS,
            operators: MOST_OPERATORS,
            statements: MOST_STATEMENTS,
        }
    }

    /// The limits on a program that was printed.
    pub fn of_printed() -> Limits
        ensures { control.limits_of result ≡ refusal.printed_limits }
    {
        Limits {
            brackets: 8 * MOST_BRACKETS,
            operators: 8 * MOST_OPERATORS,
            statements: 8 * MOST_STATEMENTS,
        }
    }
}
