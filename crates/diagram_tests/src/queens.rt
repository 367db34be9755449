//! The boards of n queens of which none reaches another, as one condition over the squares, row by row.

ghost use Rattle.std.specs.Prelude.{◌≡◌, ◌*◌, ◌<◌, ◌≤◌, IfOk};
ghost use Rattle.worlds.specs.Algebra.{Kept};

use worlds::{NodeLimit, Worlds};

/// Whether two squares stand in one row, column or diagonal.
fn reaches(n: u16, square: u16, other: u16) -> bool
    requires { 0 < n }
{
    let rows = (square / n).abs_diff(other / n);
    let columns = (square % n).abs_diff(other % n);
    rows == 0 || columns == 0 || rows == columns
}

/// The condition where the feature is false.
fn without_feature<W: Worlds>(w: &mut W, c: W::C, f: u16) -> Result<W::C, NodeLimit>
    requires live { (W.algebra w.old).live c }
    requires feature { f < (W.algebra w.old).count }
    ensures kept { Kept (W.algebra w.old) (W.algebra w.new) }
    ensures live { IfOk result (W.algebra w.new).live }
{
    let feature = w.feature(f)?;
    w.without(c, feature)
}

/// No other queen stands in reach of the square.
fn none_in_reach<W: Worlds>(w: &mut W, n: u16, square: u16) -> Result<W::C, NodeLimit>
    requires few { n ≤ 16 }
    requires squares { n * n ≤ (W.algebra w.old).count }
    ensures kept { Kept (W.algebra w.old) (W.algebra w.new) }
    ensures live { IfOk result (W.algebra w.new).live }
{
    let mut free = w.always();
    'others: for other in 0..n * n {
        if other != square && reaches(n, square, other) {
            free = without_feature(w, free, other)?;
        }
    }
    Ok(free)
}

/// If a queen stands on the square, no other stands in its reach.
fn safe<W: Worlds>(w: &mut W, n: u16, square: u16) -> Result<W::C, NodeLimit>
    requires few { n ≤ 16 }
    requires square { square < n * n }
    requires squares { n * n ≤ (W.algebra w.old).count }
    ensures kept { Kept (W.algebra w.old) (W.algebra w.new) }
    ensures live { IfOk result (W.algebra w.new).live }
{
    let free = none_in_reach(w, n, square)?;
    let all = w.always();
    let empty = without_feature(w, all, square)?;
    w.either(empty, free)
}

/// Some queen stands in the row.
fn some_in_row<W: Worlds>(w: &mut W, n: u16, row: u16) -> Result<W::C, NodeLimit>
    requires few { n ≤ 16 }
    requires row { row < n }
    requires squares { n * n ≤ (W.algebra w.old).count }
    ensures kept { Kept (W.algebra w.old) (W.algebra w.new) }
    ensures live { IfOk result (W.algebra w.new).live }
{
    let mut some = w.never();
    'columns: for column in 0..n {
        let here = w.feature(row * n + column)?;
        some = w.either(some, here)?;
    }
    Ok(some)
}

/// Some queen stands in each row.
fn some_in_each_row<W: Worlds>(w: &mut W, n: u16) -> Result<W::C, NodeLimit>
    requires few { n ≤ 16 }
    requires squares { n * n ≤ (W.algebra w.old).count }
    ensures kept { Kept (W.algebra w.old) (W.algebra w.new) }
    ensures live { IfOk result (W.algebra w.new).live }
{
    let mut board = w.always();
    'rows: for row in 0..n {
        let some = some_in_row(w, n, row)?;
        board = w.both(board, some)?;
    }
    Ok(board)
}

/// Some queen stands in each row, and none in reach of another.
pub fn queens<W: Worlds>(w: &mut W, n: u16) -> Result<W::C, NodeLimit>
    requires few { n ≤ 16 }
    requires squares { n * n ≤ (W.algebra w.old).count }
    ensures kept { Kept (W.algebra w.old) (W.algebra w.new) }
    ensures live { IfOk result (W.algebra w.new).live }
{
    let mut board = some_in_each_row(w, n)?;
    'squares: for square in 0..n * n {
        let safe = safe(w, n, square)?;
        board = w.both(board, safe)?;
    }
    Ok(board)
}
