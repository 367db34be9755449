//! Where walks along a path lead from one element to another.

ghost use Rattle.std.specs.Prelude.{◌≡◌, ◌<◌, ◌+◌, ◌*◌, ◌^◌, length, map, IfOk, IfErr};
ghost use Rattle.std.specs.List.{All};
ghost use Rattle.meaning.specs.Bounds.{path_size};
ghost use Rattle.worlds.specs.Algebra.{Worked, Stops};
ghost use Rattle.path_queries.specs.View.{path};
ghost use Rattle.path_queries.specs.Relations.{related};
ghost use Rattle.path_queries.specs.Matrices.{linked, MatrixWhere};
ghost use Rattle.path_queries.specs.Presence.{arrow_at, IsEdge};

use crate::data::Path;
use crate::matrix::{chain, compose, of_kind, unite};
use crate::presence::Edge;
use std::alloc::Global;
use worlds::{QStop, Worlds};

/// The matrix of the walks along a path between n elements.
pub fn walks<W: Worlds>(
    alloc: Global,
    n: usize,
    edges: &[Edge<W::C>],
    along: &Path,
    w: &mut W,
) -> Result<Vec<W::C>, QStop>
    requires bound { n < 2 ^ 16 }
    requires edges { All (IsEdge (W.algebra w.old) n) edges.now }
    ensures worked { Worked (path_size (path along.now) * (16 * (length edges.now + (n + 1) ^ 3))) (W.algebra w.old) (W.algebra w.new) }
    ensures made { IfOk result (λ cells. MatrixWhere (W.algebra w.new) n cells.items (λ x. related n (linked (map (arrow_at (W.algebra w.old) x) edges.now)) (path along.now))) }
    ensures stops { IfErr result (Stops (W.algebra w.old) (W.algebra w.new)) }
{
    match along {
        Path::Link(kind) => of_kind(alloc, n, edges, *kind, false, w),
        Path::Back(kind) => of_kind(alloc, n, edges, *kind, true, w),
        Path::Then(first, second) => {
            let first = walks(alloc, n, edges, first, w)?;
            let second = walks(alloc, n, edges, second, w)?;
            compose(alloc, n, &first, &second, w)
        }
        Path::Either(first, second) => {
            let first = walks(alloc, n, edges, first, w)?;
            let second = walks(alloc, n, edges, second, w)?;
            unite(alloc, n, &first, &second, w)
        }
        Path::Chain(step) => {
            let step = walks(alloc, n, edges, step, w)?;
            chain(alloc, n, &step, w)
        }
    }
}
