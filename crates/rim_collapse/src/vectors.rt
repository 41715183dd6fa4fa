ghost use Rattle.std.specs.Prelude.{◌≡◌, ◌≤◌, ◌*◌, ◌-ℤ◌, ◌*ℤ◌, unsigned_abs};
ghost use Rattle.geom_core.specs.Limits.{HasGridCorners, IsGridCoordinate, IsGridPoint};
ghost use Rattle.rim_collapse.specs.Internal.Sizes.{IsWithin};
ghost use Rattle.rim_collapse.specs.Normals.{cross, dot, minus, normal};

use geom_core::limits::MAX_COORDINATE;
use geom_core::{Pt, Tri};

/// Greatest size of a component of a vector between two points of a mesh, in grid steps.
const OFFSET_LIMIT: u64 = 2 * MAX_COORDINATE as u64;

/// Greatest size of a component of a normal, in squares of grid steps.
const NORMAL_LIMIT: u64 = 2 * OFFSET_LIMIT * OFFSET_LIMIT;

/// A vector between points in grid steps, or a normal in their squares.
#[derive(Clone, Copy, Debug, PartialEq, Eq)]
pub(crate) struct Vector {
    /// The component along the x axis.
    pub x: i64,
    /// The component along the y axis.
    pub y: i64,
    /// The component along the z axis.
    pub z: i64,
}

/// Returns how far the coordinate `m` is above `n`.
fn difference(m: i32, n: i32) -> i64
    requires m { IsGridCoordinate m }
    requires n { IsGridCoordinate n }
    ensures difference { result ≡ m -ℤ n }
    ensures size { unsigned_abs result ≤ OFFSET_LIMIT }
{
    i64::from(m) - i64::from(n)
}

/// Returns the vector from `q` to `p`.
pub(crate) fn minus(p: Pt, q: Pt) -> Vector
    requires p { IsGridPoint p }
    requires q { IsGridPoint q }
    ensures difference { result ≡ minus p q }
    ensures size { IsWithin OFFSET_LIMIT result }
{
    Vector {
        x: difference(p.x, q.x),
        y: difference(p.y, q.y),
        z: difference(p.z, q.z),
    }
}

/// Returns the product of two components of offsets.
fn times(m: i64, n: i64) -> i64
    requires m { unsigned_abs m ≤ OFFSET_LIMIT }
    requires n { unsigned_abs n ≤ OFFSET_LIMIT }
    ensures product { result ≡ m *ℤ n }
    ensures size { unsigned_abs result ≤ OFFSET_LIMIT * OFFSET_LIMIT }
{
    m * n
}

/// Returns `k * n - l * m`, a component of a cross product.
fn cross_component(k: i64, l: i64, m: i64, n: i64) -> i64
    requires k { unsigned_abs k ≤ OFFSET_LIMIT }
    requires l { unsigned_abs l ≤ OFFSET_LIMIT }
    requires m { unsigned_abs m ≤ OFFSET_LIMIT }
    requires n { unsigned_abs n ≤ OFFSET_LIMIT }
    ensures component { result ≡ k *ℤ n -ℤ l *ℤ m }
    ensures size { unsigned_abs result ≤ NORMAL_LIMIT }
{
    times(k, n) - times(l, m)
}

/// Returns the cross product of two offsets.
fn cross(u: Vector, v: Vector) -> Vector
    requires u { IsWithin OFFSET_LIMIT u }
    requires v { IsWithin OFFSET_LIMIT v }
    ensures cross { result ≡ cross u v }
    ensures size { IsWithin NORMAL_LIMIT result }
{
    Vector {
        x: cross_component(u.y, u.z, v.y, v.z),
        y: cross_component(u.z, u.x, v.z, v.x),
        z: cross_component(u.x, u.y, v.x, v.y),
    }
}

/// Returns the normal of a triangle, twice as long as its area.
#[tactic(auto, unfolding(crate::specs::Normals::normal))]
pub(crate) fn normal(tri: Tri) -> Vector
    requires { HasGridCorners tri }
    ensures normal { result ≡ normal tri }
    ensures size { IsWithin NORMAL_LIMIT result }
{
    cross(minus(tri.b, tri.a), minus(tri.c, tri.a))
}

/// Returns the product of two components.
fn wide_times(m: i64, n: i64) -> i128
    requires m { unsigned_abs m ≤ NORMAL_LIMIT }
    requires n { unsigned_abs n ≤ NORMAL_LIMIT }
    ensures product { result ≡ m *ℤ n }
    ensures size { unsigned_abs result ≤ NORMAL_LIMIT * NORMAL_LIMIT }
{
    i128::from(m) * i128::from(n)
}

/// Returns the dot product.
pub(crate) fn dot(u: Vector, v: Vector) -> i128
    requires u { IsWithin NORMAL_LIMIT u }
    requires v { IsWithin NORMAL_LIMIT v }
    ensures dot { result ≡ dot u v }
    ensures size { unsigned_abs result ≤ 3 * (NORMAL_LIMIT * NORMAL_LIMIT) }
{
    wide_times(u.x, v.x) + wide_times(u.y, v.y) + wide_times(u.z, v.z)
}
