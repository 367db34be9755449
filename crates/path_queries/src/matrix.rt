//! Relations between elements as matrices of conditions, row by row: where one element is related to another.

ghost use Rattle.std.specs.Prelude.{◌≡◌, ◌<◌, ◌+◌, ◌*◌, ◌^◌, ◌&&◌, ◌||◌, ◌==◌, false, length, map, IfOk, IfErr};
ghost use Rattle.std.specs.List.{All};
ghost use Rattle.worlds.specs.Algebra.{Worked, HoldsWhere, IsRefusal, Stops};
ghost use Rattle.path_queries.specs.Relations.{composed, united, turned, start_of, through, closed};
ghost use Rattle.path_queries.specs.Matrices.{relation_at, linked, IsMatrix, MatrixWhere};
ghost use Rattle.path_queries.specs.Presence.{arrow_at, IsEdge};

use crate::presence::Edge;
use std::alloc::{AllocError, Global};
use worlds::{NodeLimit, QStop, Worlds};

/// Holds where the first does, or both of the others do.
fn or_by_way<W: Worlds>(direct: W::C, to: W::C, from: W::C, w: &mut W) -> Result<W::C, NodeLimit>
    requires direct_live { (W.algebra w.old).live direct }
    requires to_live { (W.algebra w.old).live to }
    requires from_live { (W.algebra w.old).live from }
    ensures worked { Worked 2 (W.algebra w.old) (W.algebra w.new) }
    ensures made { IfOk result (λ c. HoldsWhere (W.algebra w.new) c (λ x. (W.algebra w.old).holds direct x || ((W.algebra w.old).holds to x && (W.algebra w.old).holds from x))) }
    ensures refused { IfErr result (IsRefusal (W.algebra w.old) (W.algebra w.new)) }
{
    if w.is_never(to) || w.is_never(from) {
        return Ok(direct);
    }
    let both = w.both(to, from)?;
    w.either(direct, both)
}

/// The matrix that relates nothing.
fn nothing<W: Worlds>(alloc: Global, n: usize, w: &W) -> Result<Vec<W::C>, AllocError>
    requires bound { n < 2 ^ 16 }
    ensures made { IfOk result (λ cells. MatrixWhere (W.algebra w.now) n cells.items (λ _ _ _. false)) }
{
    let never = w.never();
    let mut cells = Vec::new(alloc);
    for _cell in 0..n * n {
        cells.push(never)?;
    }
    Ok(cells)
}

/// The cell of an edge in the matrix of its direction, or of the other one.
fn place<C>(n: usize, edge: &Edge<C>, back: bool) -> usize
    requires bound { n < 2 ^ 16 }
    requires source { edge.now.from < n }
    requires target { edge.now.to < n }
    ensures place { result ≡ start_of back edge.now.from edge.now.to * n + start_of back edge.now.to edge.now.from }
    ensures within { result < n * n }
{
    if back {
        usize::from(edge.to) * n + usize::from(edge.from)
    } else {
        usize::from(edge.from) * n + usize::from(edge.to)
    }
}

/// Holds where the condition does, or an edge of the kind is there.
fn or_by_edge<W: Worlds>(
    before: W::C,
    edge: &Edge<W::C>,
    kind: u16,
    w: &mut W,
) -> Result<W::C, NodeLimit>
    requires before_live { (W.algebra w.old).live before }
    requires edge_live { (W.algebra w.old).live edge.now.when }
    ensures worked { Worked 1 (W.algebra w.old) (W.algebra w.new) }
    ensures made { IfOk result (λ c. HoldsWhere (W.algebra w.new) c (λ x. (W.algebra w.old).holds before x || ((edge.now.kind == kind) && (W.algebra w.old).holds edge.now.when x))) }
    ensures refused { IfErr result (IsRefusal (W.algebra w.old) (W.algebra w.new)) }
{
    if edge.kind == kind {
        w.either(before, edge.when)
    } else {
        Ok(before)
    }
}

/// Where a link of the kind leads from one element to another, or back.
pub fn of_kind<W: Worlds>(
    alloc: Global,
    n: usize,
    edges: &[Edge<W::C>],
    kind: u16,
    back: bool,
    w: &mut W,
) -> Result<Vec<W::C>, QStop>
    requires bound { n < 2 ^ 16 }
    requires edges { All (IsEdge (W.algebra w.old) n) edges.now }
    ensures worked { Worked (length edges.now) (W.algebra w.old) (W.algebra w.new) }
    ensures made { IfOk result (λ cells. MatrixWhere (W.algebra w.new) n cells.items (λ x. turned back (linked (map (arrow_at (W.algebra w.old) x) edges.now) kind))) }
    ensures stops { IfErr result (Stops (W.algebra w.old) (W.algebra w.new)) }
{
    let mut cells = nothing(alloc, n, w)?;
    for edge in edges {
        let cell = place(n, edge, back);
        let before = cells[cell];
        let after = or_by_edge(before, edge, kind, w)?;
        cells[cell] = after;
    }
    Ok(cells)
}

/// Holds where the one relation and then the other lead from the first element to the second.
fn composed_cell<W: Worlds>(
    n: usize,
    a: &[W::C],
    b: &[W::C],
    i: usize,
    j: usize,
    w: &mut W,
) -> Result<W::C, NodeLimit>
    requires bound { n < 2 ^ 16 }
    requires row { i < n }
    requires column { j < n }
    requires a { IsMatrix (W.algebra w.old) n a.now }
    requires b { IsMatrix (W.algebra w.old) n b.now }
    ensures worked { Worked (2 * n) (W.algebra w.old) (W.algebra w.new) }
    ensures made { IfOk result (λ c. HoldsWhere (W.algebra w.new) c (λ x. composed n (relation_at (W.algebra w.old) n a.now x) (relation_at (W.algebra w.old) n b.now x) i j)) }
    ensures refused { IfErr result (IsRefusal (W.algebra w.old) (W.algebra w.new)) }
{
    let mut found = w.never();
    for k in 0..n {
        let row = i * n + k;
        let column = k * n + j;
        let further = or_by_way(found, a[row], b[column], w)?;
        found = further;
    }
    Ok(found)
}

/// One relation and then the other.
pub fn compose<W: Worlds>(
    alloc: Global,
    n: usize,
    a: &[W::C],
    b: &[W::C],
    w: &mut W,
) -> Result<Vec<W::C>, QStop>
    requires bound { n < 2 ^ 16 }
    requires a { IsMatrix (W.algebra w.old) n a.now }
    requires b { IsMatrix (W.algebra w.old) n b.now }
    ensures worked { Worked (n * n * (2 * n)) (W.algebra w.old) (W.algebra w.new) }
    ensures made { IfOk result (λ cells. MatrixWhere (W.algebra w.new) n cells.items (λ x. composed n (relation_at (W.algebra w.old) n a.now x) (relation_at (W.algebra w.old) n b.now x))) }
    ensures stops { IfErr result (Stops (W.algebra w.old) (W.algebra w.new)) }
{
    let mut cells = Vec::new(alloc);
    for place in 0..n * n {
        let cell = composed_cell(n, a, b, place / n, place % n, w)?;
        cells.push(cell)?;
    }
    Ok(cells)
}

/// One relation or the other.
pub fn unite<W: Worlds>(
    alloc: Global,
    n: usize,
    a: &[W::C],
    b: &[W::C],
    w: &mut W,
) -> Result<Vec<W::C>, QStop>
    requires bound { n < 2 ^ 16 }
    requires a { IsMatrix (W.algebra w.old) n a.now }
    requires b { IsMatrix (W.algebra w.old) n b.now }
    ensures worked { Worked (n * n) (W.algebra w.old) (W.algebra w.new) }
    ensures made { IfOk result (λ cells. MatrixWhere (W.algebra w.new) n cells.items (λ x. united (relation_at (W.algebra w.old) n a.now x) (relation_at (W.algebra w.old) n b.now x))) }
    ensures stops { IfErr result (Stops (W.algebra w.old) (W.algebra w.new)) }
{
    let mut cells = Vec::new(alloc);
    for place in 0..n * n {
        let cell = w.either(a[place], b[place])?;
        cells.push(cell)?;
    }
    Ok(cells)
}

/// The relation, and where it leads by way of one element.
fn by_way<W: Worlds>(
    alloc: Global,
    n: usize,
    a: &[W::C],
    middle: usize,
    w: &mut W,
) -> Result<Vec<W::C>, QStop>
    requires bound { n < 2 ^ 16 }
    requires middle { middle < n }
    requires a { IsMatrix (W.algebra w.old) n a.now }
    ensures worked { Worked (n * n * 2) (W.algebra w.old) (W.algebra w.new) }
    ensures made { IfOk result (λ cells. MatrixWhere (W.algebra w.new) n cells.items (λ x. through middle (relation_at (W.algebra w.old) n a.now x))) }
    ensures stops { IfErr result (Stops (W.algebra w.old) (W.algebra w.new)) }
{
    let mut cells = Vec::new(alloc);
    for place in 0..n * n {
        let row = place / n * n + middle;
        let column = middle * n + place % n;
        let cell = or_by_way(a[place], a[row], a[column], w)?;
        cells.push(cell)?;
    }
    Ok(cells)
}

/// One or more steps of the relation after one another: it is closed by way of each element in turn.
pub fn chain<W: Worlds>(alloc: Global, n: usize, a: &[W::C], w: &mut W) -> Result<Vec<W::C>, QStop>
    requires bound { n < 2 ^ 16 }
    requires a { IsMatrix (W.algebra w.old) n a.now }
    ensures worked { Worked (n * (n * n * 2)) (W.algebra w.old) (W.algebra w.new) }
    ensures made { IfOk result (λ cells. MatrixWhere (W.algebra w.new) n cells.items (λ x. closed n (relation_at (W.algebra w.old) n a.now x))) }
    ensures stops { IfErr result (Stops (W.algebra w.old) (W.algebra w.new)) }
{
    let mut cells = Vec::from_slice(alloc, a)?;
    for middle in 0..n {
        let next = by_way(alloc, n, &cells, middle, w)?;
        cells = next;
    }
    Ok(cells)
}
