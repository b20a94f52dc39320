//! The problem of the queens: on a board of `n` rows of `n` squares each row has a queen, and no
//! queen attacks another. A variable for each square, row by row, says whether a queen stands
//! there.
ghost use Rattle.std.specs.Prelude.{◌*◌, ◌<◌, ◌≤◌, IfOk};
ghost use Rattle.hv_cond.specs.Diagram.{IsNode, Keeps};

use hv_cond::{Cond, Store};
use std::alloc::AllocError;

/// A square of a board.
#[derive(Clone, Copy, PartialEq, Eq, Debug)]
struct Square {
    row: u32,
    column: u32,
}

impl Square {
    /// The square of a variable, on a board of `n` rows.
    fn of_variable(i: u32, n: u32) -> Square
        requires { 0 < n }
    {
        Square {
            row: i / n,
            column: i % n,
        }
    }

    /// Whether a queen here attacks another there.
    fn attacks(self, other: Square) -> bool {
        let rows = self.row.abs_diff(other.row);
        let columns = self.column.abs_diff(other.column);
        rows == 0 || columns == 0 || rows == columns
    }
}

/// The placings in which each row has a queen and no queen attacks another.
pub fn queens(store: &mut Store, n: u32) -> Result<Cond, AllocError>
    requires room { n * n ≤ store.old.variables }
    requires small { n ≤ 8 }
    ensures keeps { Keeps store.old store.new }
    ensures node { IfOk result (IsNode store.new) }
{
    if n == 0 {
        return Ok(store.truth());
    }
    let squares = n * n;
    let filled = rows(store, n, squares)?;
    let peaceful = no_attacks(store, n, squares)?;
    store.and(filled, peaceful)
}

/// Each row has a queen.
fn rows(store: &mut Store, n: u32, squares: u32) -> Result<Cond, AllocError>
    requires some { 0 < n }
    requires room { squares ≤ store.old.variables }
    ensures keeps { Keeps store.old store.new }
    ensures node { IfOk result (IsNode store.new) }
{
    let mut all = store.truth();
    for row in 0..n {
        let filled = queen_in_row(store, n, squares, row)?;
        all = store.and(all, filled)?;
    }
    Ok(all)
}

/// A row has a queen.
fn queen_in_row(store: &mut Store, n: u32, squares: u32, row: u32) -> Result<Cond, AllocError>
    requires some { 0 < n }
    requires room { squares ≤ store.old.variables }
    ensures keeps { Keeps store.old store.new }
    ensures node { IfOk result (IsNode store.new) }
{
    let mut any = store.falsity();
    for i in 0..squares {
        if Square::of_variable(i, n).row == row {
            let queen = store.var(i)?;
            any = store.or(any, queen)?;
        }
    }
    Ok(any)
}

/// No queen attacks another.
fn no_attacks(store: &mut Store, n: u32, squares: u32) -> Result<Cond, AllocError>
    requires some { 0 < n }
    requires room { squares ≤ store.old.variables }
    ensures keeps { Keeps store.old store.new }
    ensures node { IfOk result (IsNode store.new) }
{
    let mut all = store.truth();
    for i in 0..squares {
        let none = none_attacked(store, n, squares, i)?;
        all = store.and(all, none)?;
    }
    Ok(all)
}

/// A queen on a square attacks none on the squares after it.
fn none_attacked(store: &mut Store, n: u32, squares: u32, i: u32) -> Result<Cond, AllocError>
    requires some { 0 < n }
    requires room { squares ≤ store.old.variables }
    requires square { i < squares }
    ensures keeps { Keeps store.old store.new }
    ensures node { IfOk result (IsNode store.new) }
{
    let square = Square::of_variable(i, n);
    let mut none = store.truth();
    for j in i + 1..squares {
        if square.attacks(Square::of_variable(j, n)) {
            let apart = not_both(store, i, j)?;
            none = store.and(none, apart)?;
        }
    }
    Ok(none)
}

/// Not both of two variables are true.
fn not_both(store: &mut Store, i: u32, j: u32) -> Result<Cond, AllocError>
    requires first { i < store.old.variables }
    requires second { j < store.old.variables }
    ensures keeps { Keeps store.old store.new }
    ensures node { IfOk result (IsNode store.new) }
{
    let one = store.var(i)?;
    let other = store.var(j)?;
    let both = store.and(one, other)?;
    store.not(both)
}
