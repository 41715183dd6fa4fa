ghost use Rattle.std.specs.Prelude.{◌≡◌, ◌<◌, ◌≤◌, ◌+◌, ◌*◌, ℕ, pos, ◌<ℤ◌, ◌≤ℤ◌, List, ◌++◌};
ghost use Rattle.geom_core.specs.Winding.{edge_function};
ghost use Rattle.geom_core.specs.Depth.{weighted};
ghost use Rattle.raster64.specs.Internal.Centres.{centre, AreInRange};
ghost use Rattle.raster64.specs.Internal.Numerators.{IsDivided, IsDepthPlane};
ghost use Rattle.raster64.specs.Internal.Raster.{CanBeDrawn, AreWithin, AreRowsOf, is_covered, exchanged, words_in};

use crate::depths::{DepthPlane, Quotient, add, depth_at, depth_plane};
use crate::edges::edge_function;
use crate::ranges::{CentreRange, centre_of, centre_range};
use crate::reach::are_near;
use crate::sinks::PixelSink;
use crate::spans::covered_columns;
use crate::wide::Wide;
use crate::words::pack;
use geom_core::{Size, Spot};

/// A triangle on the screen, the numbers that its words have, and the size of the picture.
#[derive(Clone, Copy)]
pub(crate) struct ScreenTriangle {
    /// The first corner.
    pub a: Spot,
    /// The second corner.
    pub b: Spot,
    /// The third corner.
    pub c: Spot,
    /// The number of the triangle's cluster.
    pub cluster: u32,
    /// The triangle's number in its cluster.
    pub tri: u32,
    /// The picture's size.
    pub size: Size,
}

/// Puts the words of the covered columns of a row, stepping the depth from that of the first one.
fn draw_columns<W: Wide, T: PixelSink>(
    triangle: ScreenTriangle,
    plane: DepthPlane<W>,
    row: u32,
    columns: CentreRange,
    start: Quotient<W>,
    to: &mut T,
)
    requires drawable { CanBeDrawn triangle }
    requires reach { AreWithin W.reach triangle }
    requires plane { IsDepthPlane triangle.a triangle.b triangle.c (W.int plane.divisor)
        (W.int plane.step.whole) (W.int plane.step.rest) }
    requires row { row < triangle.size.height }
    requires columns { AreInRange (λ k. is_covered triangle (row * triangle.size.width + k))
        columns.first columns.end triangle.size.width }
    requires start { IsDivided
        (weighted triangle.a triangle.b triangle.c (centre columns.first) (centre row))
        (W.int plane.divisor) (W.int start.whole) (W.int start.rest) }
    requires sink_size { triangle.size.width * triangle.size.height ≤ T.pixels to.old }
    ensures same_size { T.pixels to.new ≡ T.pixels to.old }
    ensures shown { (rest : T.Rest) (before : List (ℕ × ℕ)) → T.shows to.old rest before
        → T.shows to.new rest
        (before ++ words_in triangle (row * triangle.size.width) triangle.size.width) }
{
    let CentreRange { first, end } = columns;
    let mut depth = start;
    'columns: for column in first..end {
        let word = pack(depth.whole.to_i64() as u32, triangle.cluster, triangle.tri);
        to.put(row * triangle.size.width + column, word);
        depth = add(depth, plane.step, plane.divisor);
    }
}

/// Puts the words of one row.
fn draw_row<W: Wide, T: PixelSink>(
    triangle: ScreenTriangle,
    plane: DepthPlane<W>,
    row: u32,
    to: &mut T,
)
    requires drawable { CanBeDrawn triangle }
    requires reach { AreWithin W.reach triangle }
    requires plane { IsDepthPlane triangle.a triangle.b triangle.c (W.int plane.divisor)
        (W.int plane.step.whole) (W.int plane.step.rest) }
    requires row { row < triangle.size.height }
    requires sink_size { triangle.size.width * triangle.size.height ≤ T.pixels to.old }
    ensures same_size { T.pixels to.new ≡ T.pixels to.old }
    ensures shown { (rest : T.Rest) (before : List (ℕ × ℕ)) → T.shows to.old rest before
        → T.shows to.new rest
        (before ++ words_in triangle (row * triangle.size.width) triangle.size.width) }
{
    let ScreenTriangle { a, b, c, size, .. } = triangle;
    let y = centre_of(row);
    let columns = covered_columns::<W>(a, b, c, y, size.width);
    if columns.first < columns.end {
        let start = depth_at(a, b, c, plane, centre_of(columns.first), y);
        draw_columns(triangle, plane, row, columns, start, to);
    }
}

/// Puts the words of all pixels of a triangle with a positive area; `rows` are the rows between its least and
/// its greatest y.
fn draw_rows<W: Wide, T: PixelSink>(
    triangle: ScreenTriangle,
    rows: CentreRange,
    divisor: W,
    to: &mut T,
)
    requires drawable { CanBeDrawn triangle }
    requires reach { AreWithin W.reach triangle }
    requires rows { AreRowsOf triangle rows.first rows.end }
    requires area { W.int divisor
        ≡ edge_function triangle.a triangle.b triangle.c.x triangle.c.y }
    requires positive { pos 0 <ℤ W.int divisor }
    requires sink_size { triangle.size.width * triangle.size.height ≤ T.pixels to.old }
    ensures same_size { T.pixels to.new ≡ T.pixels to.old }
    ensures shown { (rest : T.Rest) (before : List (ℕ × ℕ)) → T.shows to.old rest before
        → T.shows to.new rest
        (before ++ words_in triangle 0 (triangle.size.width * triangle.size.height)) }
{
    let plane = depth_plane(triangle.a, triangle.b, triangle.c, divisor);
    let CentreRange { first, end } = rows;
    'rows: for row in first..end {
        draw_row(triangle, plane, row, to);
    }
}

/// The triangle with its second and third corner exchanged, which covers the same pixels.
fn exchanged(triangle: ScreenTriangle) -> ScreenTriangle
    ensures { result ≡ exchanged triangle }
{
    ScreenTriangle {
        b: triangle.c,
        c: triangle.b,
        ..triangle
    }
}

/// Puts the words of all pixels of a triangle whose area is not positive.
fn draw_exchanged<W: Wide, T: PixelSink>(
    triangle: ScreenTriangle,
    rows: CentreRange,
    divisor: W,
    to: &mut T,
)
    requires drawable { CanBeDrawn triangle }
    requires reach { AreWithin W.reach triangle }
    requires rows { AreRowsOf triangle rows.first rows.end }
    requires area { W.int divisor
        ≡ edge_function triangle.a triangle.b triangle.c.x triangle.c.y }
    requires not_positive { W.int divisor ≤ℤ pos 0 }
    requires sink_size { triangle.size.width * triangle.size.height ≤ T.pixels to.old }
    ensures same_size { T.pixels to.new ≡ T.pixels to.old }
    ensures shown { (rest : T.Rest) (before : List (ℕ × ℕ)) → T.shows to.old rest before
        → T.shows to.new rest
        (before ++ words_in triangle 0 (triangle.size.width * triangle.size.height)) }
{
    let negated = W::from_u32(0).minus(divisor);
    if negated.is_positive() {
        draw_rows(exchanged(triangle), rows, negated, to);
    }
}

/// Puts the words of all pixels of a triangle whose products the wide type holds; `rows` are the rows between its
/// least and its greatest y.
fn draw_in<W: Wide, T: PixelSink>(triangle: ScreenTriangle, rows: CentreRange, to: &mut T)
    requires drawable { CanBeDrawn triangle }
    requires reach { AreWithin W.reach triangle }
    requires rows { AreRowsOf triangle rows.first rows.end }
    requires sink_size { triangle.size.width * triangle.size.height ≤ T.pixels to.old }
    ensures same_size { T.pixels to.new ≡ T.pixels to.old }
    ensures shown { (rest : T.Rest) (before : List (ℕ × ℕ)) → T.shows to.old rest before
        → T.shows to.new rest
        (before ++ words_in triangle 0 (triangle.size.width * triangle.size.height)) }
{
    let ScreenTriangle { a, b, c, .. } = triangle;
    let divisor = edge_function::<W>(a, b, c.x, c.y);
    if divisor.is_positive() {
        draw_rows(triangle, rows, divisor, to);
    } else {
        draw_exchanged(triangle, rows, divisor, to);
    }
}

/// Puts the words of all pixels, in 64 bits if all corners are near the picture.
fn draw_boxed<T: PixelSink>(triangle: ScreenTriangle, rows: CentreRange, to: &mut T)
    requires drawable { CanBeDrawn triangle }
    requires rows { AreRowsOf triangle rows.first rows.end }
    requires sink_size { triangle.size.width * triangle.size.height ≤ T.pixels to.old }
    ensures same_size { T.pixels to.new ≡ T.pixels to.old }
    ensures shown { (rest : T.Rest) (before : List (ℕ × ℕ)) → T.shows to.old rest before
        → T.shows to.new rest
        (before ++ words_in triangle 0 (triangle.size.width * triangle.size.height)) }
{
    if are_near(triangle.a, triangle.b, triangle.c) {
        draw_in::<i64, T>(triangle, rows, to);
    } else {
        draw_in::<i128, T>(triangle, rows, to);
    }
}

/// Puts the words of all pixels. A triangle whose box has no centre of a row or of a column is left before any
/// product.
pub(crate) fn draw<T: PixelSink>(triangle: ScreenTriangle, to: &mut T)
    requires drawable { CanBeDrawn triangle }
    requires sink_size { triangle.size.width * triangle.size.height ≤ T.pixels to.old }
    ensures same_size { T.pixels to.new ≡ T.pixels to.old }
    ensures shown { (rest : T.Rest) (before : List (ℕ × ℕ)) → T.shows to.old rest before
        → T.shows to.new rest
        (before ++ words_in triangle 0 (triangle.size.width * triangle.size.height)) }
{
    let ScreenTriangle { a, b, c, size, .. } = triangle;
    let rows = centre_range(a.y, b.y, c.y, size.height);
    let columns = centre_range(a.x, b.x, c.x, size.width);
    if rows.first < rows.end && columns.first < columns.end {
        draw_boxed(triangle, rows, to);
    }
}
