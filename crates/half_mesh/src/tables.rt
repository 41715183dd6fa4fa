ghost use Rattle.std.specs.Prelude.{◌≡◌, ◌≤◌, ◌↔◌, pos, IfOk, IsTrue, List, length, map, Contains, if◌then◌else◌};
ghost use Rattle.std.specs.Prelude.{unsigned_abs};
ghost use Rattle.geom_core.specs.declared.limits.TheConstants.{MAX_SUMMED_TRIANGLES};
ghost use Rattle.geom_core.specs.EdgeSum.{edge_sum, OnRim};
ghost use Rattle.half_mesh.specs.declared.edges.Edge.{Edge};
ghost use Rattle.half_mesh.specs.Around.{triangles_around};
ghost use Rattle.geom_core.specs.Order.{is_before};
ghost use Rattle.half_mesh.specs.Rim.{IsAscending, IsRimEdge};

use crate::corners::sorted_corners;
use crate::edges::Edge;
use crate::incidences::{Incidence, range_at};
use crate::rims::Rim;
use crate::search::position_of;
use geom_core::{Memory, Pt, Tri};
use std::alloc::Global;
use std::marker::Model;

/// The edges and corners of a list of triangles, for looking them up. A contract sees the list.
#[derive(Drop)]
pub struct EdgeTable<'a> {
    tris: &'a [Tri],
    corners: Vec<Incidence<u32>>,
    numbers: Vec<u32>,
    rim: Rim,
    rim_points: Vec<Pt>,
}

impl<'a> Model for EdgeTable<'a> {
    ghost use Rattle.std.specs.Prelude.{List};
    ghost use Rattle.geom_core.specs.declared.triangles.Tri.{Tri};
    ghost use Rattle.half_mesh.specs.Tables.{IsTableOf};

    ghost Value = { List Tri };

    ghost view = { λ t. t.tris.now };

    ghost invariant = { λ t. IsTableOf t.tris.now t.corners.items t.numbers.items
        t.rim.edges t.rim.sums t.rim_points.items };
}

impl<'a> EdgeTable<'a> {
    /// The table of these triangles.
    pub fn of(alloc: Global, tris: &'a [Tri]) -> Result<EdgeTable<'a>, Memory>
        requires triangle_limit { length tris.now ≤ MAX_SUMMED_TRIANGLES }
        ensures { IfOk result (λ table. table ≡ tris.now) }
    {
        let corners = sorted_corners(alloc, tris)?;
        let rim = Rim::of(alloc, tris)?;
        let rim_points = rim.points(alloc)?;
        let numbers = numbers_of(alloc, &corners)?;
        Ok(EdgeTable {
            tris,
            corners,
            numbers,
            rim,
            rim_points,
        })
    }

    /// How often the triangles run from `u` to `v`, less how often they run from `v` to `u`.
    pub fn sum_of(&self, u: Pt, v: Pt) -> i32
        ensures { result ≡ edge_sum self.now u v }
    {
        if u < v {
            self.sum_ahead(u, v)
        } else {
            -self.sum_ahead(v, u)
        }
    }

    /// The sum from `u` to `v` where `u` comes first, and else 0.
    fn sum_ahead(&self, u: Pt, v: Pt) -> i32
        ensures sum { result ≡ (if is_before u v then edge_sum self.now u v else pos 0) }
        ensures sum_range { unsigned_abs result ≤ MAX_SUMMED_TRIANGLES }
    {
        match position_of(self.rim.edges(), &Edge { u, v }) {
            Some(place) => self.rim.sums()[place],
            None => 0,
        }
    }

    /// The edges whose sum isn't 0, ascending.
    pub fn rim(&self) -> &[Edge]
        ensures ascending { IsAscending result.now }
        ensures exact { (e : Edge) → Contains result.now e ↔ IsRimEdge self.now e }
    {
        self.rim.edges()
    }

    /// Whether some edge at `p` has a sum other than 0.
    pub fn on_rim(&self, p: Pt) -> bool
        ensures { IsTrue result ↔ OnRim self.now p }
    {
        position_of(&self.rim_points, &p).is_some()
    }

    /// The triangles with corner `p`, by their places in the list, ascending.
    pub fn around(&self, p: Pt) -> &[u32]
        ensures { result.now ≡ triangles_around self.now p }
    {
        let (from, to) = range_at(&self.corners, p);
        &self.numbers[from..to]
    }
}

/// The numbers of the triangles at the corners, in the corners' order.
fn numbers_of(alloc: Global, corners: &[Incidence<u32>]) -> Result<Vec<u32>, Memory>
    ensures { IfOk result (λ numbers. numbers.items ≡ map (λ corner. corner.what) corners.now) }
{
    let numbers = corners.iter().map(|corner| corner.what).collect(alloc)?;
    Ok(numbers)
}
