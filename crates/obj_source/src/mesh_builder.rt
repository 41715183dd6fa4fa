ghost use Rattle.std.specs.Prelude.{◌≡◌, ◌≢◌, ◌∷◌, ◌++◌, ◌≤◌, ◌<◌, ◌+◌, ◌-◌, ◌^◌, [], ℕ, List, true, false, IfOk, IfErr, OnOk, Ok, Err, filter, length};
ghost use Rattle.geom_core.specs.Limits.{IsScale, has_distinct_corners};
ghost use Rattle.obj_source.specs.Mesh.{MeshSoFar, nothing, vertex_named, corner_of, corners_of, with_line};
ghost use Rattle.obj_source.specs.Builder.{so_far, builder_result_from, Stands};
ghost use Rattle.obj_source.specs.LineStates.{corner_count, with_end, with_corners, polygon_from, face_from, line_result_from};
ghost use Rattle.obj_source.specs.declared.line_state.LineState.TheVariants as state;
ghost use Rattle.obj_source.specs.declared.faults.ObjFault.TheVariants as faults;

use crate::faults::{ObjFault, ObjWhy};
use crate::line_state::{CornersRead, Face, FanState, LineState, Vertex};
use crate::references::{Reference, vertex_number};
use geom_core::limits::MAX_TRIANGLES;
use geom_core::{Pt, Tri};
use std::alloc::{AllocError, Global};

/// Appends the vertex to the others.
fn add_vertex(vertices: &mut Vec<Pt>, vertex: Pt) -> Result<(), AllocError>
    ensures { OnOk result (vertices.new.items ≡ vertices.old.items ++ vertex ∷ []) }
{
    Ok(vertices.push(vertex)?)
}

/// Keeps the triangle where its corners differ. False where there is no room for it; then nothing changes.
fn push_triangle(triangles: &mut Vec<Tri>, tri: Tri) -> Result<bool, AllocError>
    requires { length triangles.old.items ≤ MAX_TRIANGLES }
    ensures kept { result ≡ Ok true → triangles.new.items
        ≡ triangles.old.items ++ filter has_distinct_corners (tri ∷ []) }
    ensures full { result ≡ Ok false → (triangles.new.items ≡ triangles.old.items)
        × (length triangles.old.items ≡ MAX_TRIANGLES) × (has_distinct_corners tri ≡ true) }
    ensures triangle_limit { length triangles.new.items ≤ MAX_TRIANGLES }
{
    if !tri.has_distinct_corners() {
        return Ok(true);
    }
    if triangles.len() == MAX_TRIANGLES as usize {
        return Ok(false);
    }
    triangles.push(tri)?;
    Ok(true)
}

/// The polygon with one corner more, whose triangle is kept.
fn push_corner(
    triangles: &mut Vec<Tri>,
    polygon: FanState,
    point: Pt,
) -> Result<FanState, AllocError>
    requires { length triangles.old.items ≤ MAX_TRIANGLES }
    ensures joined { IfOk result (λ joined. (vertices points : List Pt) →
        with_corners (record { vertices = vertices; triangles = triangles.new.items }) joined points
        ≡ with_corners (record { vertices = vertices; triangles = triangles.old.items })
        polygon (point ∷ points)) }
    ensures triangle_limit { length triangles.new.items ≤ MAX_TRIANGLES }
{
    match polygon {
        FanState::Nothing => Ok(FanState::Corner(point)),
        FanState::Corner(first) => Ok(FanState::Fan { first, last: point }),
        FanState::Fan { first, last } => {
            let tri = Tri {
                a: first,
                b: last,
                c: point,
            };
            if push_triangle(triangles, tri)? {
                Ok(FanState::Fan { first, last: point })
            } else {
                Ok(FanState::Over)
            }
        }
        FanState::Over => Ok(FanState::Over),
    }
}

/// The mesh so far, and the open line as far as its words came.
#[derive(Drop)]
pub(crate) struct MeshBuilder {
    scale: u32,
    vertices: Vec<Pt>,
    /// The triangles of the lines before, and after them those of the open one.
    triangles: Vec<Tri>,
    /// The number of the open line, from 1.
    line: u32,
    line_state: LineState,
}

impl MeshBuilder {
    /// Before any line.
    #[tactic(auto, unfolding(crate::specs::LineStates::line_result_from))]
    pub(crate) fn of(alloc: Global, scale: u32) -> MeshBuilder
        ensures stands { Stands result nothing 1 [] }
        ensures scale { result.scale ≡ scale }
        ensures line { result.line ≡ 1 }
        ensures none { result.triangles.items ≡ [] }
        ensures corners { corner_count result.line_state ≡ 0 }
    {
        MeshBuilder {
            scale,
            vertices: Vec::new(alloc),
            triangles: Vec::new(alloc),
            line: 1,
            line_state: LineState::Start,
        }
    }

    /// Whether no word that may follow in the open line matters any more.
    pub(crate) fn ignores_rest(&self) -> bool
        ensures { (mesh_so_far : MeshSoFar) (line : ℕ) (words more : List (List ℕ)) →
            result ≡ true → Stands self.now mesh_so_far line words →
            Stands self.now mesh_so_far line (words ++ more) }
    {
        match self.line_state {
            LineState::Passed => true,
            LineState::Vertex(vertex) => vertex.ignores_rest(),
            LineState::Start | LineState::Face(_) => false,
        }
    }
}

/// The vertex of this number: from 1 on in their order, from -1 on backwards.
#[tactic(auto, unfolding(crate::specs::Mesh::vertex_named))]
fn vertex_named(vertices: &[Pt], reference: Reference) -> Option<Pt>
    ensures { result ≡ vertex_named vertices.now reference.is_negative reference.number }
{
    let count = vertices.len() as u64;
    let Reference {
        is_negative,
        number,
    } = reference;
    if 1 <= number && number <= count {
        let place = if is_negative {
            count - number
        } else {
            number - 1
        };
        vertices.get(place as usize).copied()
    } else {
        None
    }
}

/// The point of the corner that a word at a place of its line names.
#[tactic(auto, unfolding(crate::specs::Mesh::corner_of))]
fn corner_at(vertices: &[Pt], place: u32, word: &[u8]) -> Result<Pt, ObjWhy>
    ensures { result ≡ corner_of vertices.now place word.now }
{
    let Some(reference) = vertex_number(word) else {
        return Err(ObjWhy::BadCorner(place));
    };
    match vertex_named(vertices, reference) {
        Some(point) => Ok(point),
        None => Err(ObjWhy::NoSuchVertex(place)),
    }
}

/// Returns what the corners give with the word of one corner more, and adds the triangle that it makes.
#[tactic(auto)]
fn read_corner(
    vertices: &[Pt],
    triangles: &mut Vec<Tri>,
    read: CornersRead,
    place: u32,
    word: &[u8],
) -> Result<CornersRead, AllocError>
    requires triangle_limit { length triangles.old.items ≤ MAX_TRIANGLES }
    ensures triangle_limit { length triangles.new.items ≤ MAX_TRIANGLES }
    ensures continues { IfOk result (λ next. (line : ℕ) (more : List (List ℕ)) →
        polygon_from (record { vertices = vertices.now; triangles = triangles.new.items })
        line (place + 1) next more
        ≡ polygon_from (record { vertices = vertices.now; triangles = triangles.old.items })
        line place read (word.now ∷ more)) }
{
    let polygon = match read {
        CornersRead::Polygon(polygon) => polygon,
        CornersRead::Faulty(_) => return Ok(read),
    };
    match corner_at(vertices, place, word) {
        Ok(point) => Ok(CornersRead::Polygon(push_corner(triangles, polygon, point)?)),
        Err(why) => Ok(CornersRead::Faulty(why)),
    }
}

impl MeshBuilder {
    /// The face with one corner more.
    #[tactic(auto, unfolding(crate::specs::LineStates::line_result_from))]
    fn with_corner(&mut self, face: Face, word: &[u8]) -> Result<LineState, AllocError>
        requires triangle_limit { length self.old.triangles.items ≤ MAX_TRIANGLES }
        requires short { face.corners < 2 ^ 32 - 1 }
        ensures triangle_limit { length self.new.triangles.items ≤ MAX_TRIANGLES }
        ensures same { self.new ≡ record self.old { triangles = self.new.triangles } }
        ensures corners { IfOk result (λ line_state. corner_count line_state ≤ face.corners + 1) }
        ensures continues { IfOk result (λ line_state. (more : List (List ℕ)) →
            line_result_from self.new.scale (so_far self.new) self.new.line line_state more
            ≡ face_from (so_far self.old) self.old.line face (word.now ∷ more)) }
    {
        let place = face.corners + 1;
        let MeshBuilder {
            vertices,
            triangles,
            ..
        } = self;
        let read = read_corner(vertices, triangles, face.read, place, word)?;
        Ok(LineState::Face(Face {
            corners: place,
            read,
        }))
    }

    /// The line's state with one word more, and the triangles with what the word makes.
    #[tactic(auto, unfolding(crate::specs::LineStates::line_result_from))]
    fn next_line_state(&mut self, word: &[u8]) -> Result<LineState, AllocError>
        requires scale_range { IsScale self.old.scale }
        requires triangle_limit { length self.old.triangles.items ≤ MAX_TRIANGLES }
        requires short { corner_count self.old.line_state < 2 ^ 32 - 1 }
        ensures triangle_limit { length self.new.triangles.items ≤ MAX_TRIANGLES }
        ensures same { self.new ≡ record self.old { triangles = self.new.triangles } }
        ensures corners { IfOk result
            (λ next. corner_count next ≤ corner_count self.old.line_state + 1) }
        ensures continues { IfOk result (λ line_state. (more : List (List ℕ)) →
            line_result_from self.new.scale (so_far self.new) self.new.line line_state more
            ≡ builder_result_from self.old (word.now ∷ more)) }
    {
        match self.line_state {
            LineState::Start => Ok(LineState::from_keyword(word)),
            LineState::Passed => Ok(LineState::Passed),
            LineState::Vertex(vertex) => Ok(LineState::Vertex(vertex.with_word(word, self.scale))),
            LineState::Face(face) => self.with_corner(face, word),
        }
    }

    /// One word more of the open line.
    pub(crate) fn push_word(&mut self, word: &[u8]) -> Result<(), AllocError>
        requires scale_range { IsScale self.old.scale }
        requires triangle_limit { length self.old.triangles.items ≤ MAX_TRIANGLES }
        requires short { corner_count self.old.line_state < 2 ^ 32 - 1 }
        ensures same { (self.new.scale ≡ self.old.scale) × (self.new.line ≡ self.old.line) }
        ensures triangle_limit { length self.new.triangles.items ≤ MAX_TRIANGLES }
        ensures corners { OnOk result
            (corner_count self.new.line_state ≤ corner_count self.old.line_state + 1) }
        ensures stands { OnOk result ((mesh_so_far : MeshSoFar) (line : ℕ) (words : List (List ℕ)) →
            Stands self.old mesh_so_far line words →
            Stands self.new mesh_so_far line (words ++ word.now ∷ [])) }
    {
        self.line_state = self.next_line_state(word)?;
        Ok(())
    }

    /// Passes the open line over, whose first word has two bytes or more.
    pub(crate) fn skip_line(&mut self)
        ensures same { (self.new.scale ≡ self.old.scale) × (self.new.line ≡ self.old.line) }
        ensures same_triangles { self.new.triangles ≡ self.old.triangles }
        ensures corners { corner_count self.new.line_state ≡ 0 }
        ensures stands { (mesh_so_far : MeshSoFar) (line : ℕ) (first : List ℕ)
            (more : List (List ℕ)) →
            2 ≤ length first → Stands self.old mesh_so_far line [] →
            Stands self.new mesh_so_far line (first ∷ more) }
    {
        self.line_state = LineState::Passed;
    }

    /// Takes in what the open line gave at its end, and begins the next one.
    fn take_end(&mut self, end: Option<Pt>) -> Result<(), AllocError>
        requires fits { self.old.line < 2 ^ 32 - 1 }
        ensures scale { self.new.scale ≡ self.old.scale }
        ensures same_triangles { OnOk result (self.new.triangles ≡ self.old.triangles) }
        ensures ended { OnOk result (with_end (so_far self.old) (Ok end) ≡ Ok (so_far self.new)) }
        ensures begun { OnOk result (self.new.line_state ≡ state.Start) }
        ensures line { OnOk result (self.new.line ≡ self.old.line + 1) }
    {
        if let Some(vertex) = end {
            add_vertex(&mut self.vertices, vertex)?;
        }
        self.line += 1;
        self.line_state = LineState::Start;
        Ok(())
    }

    /// Ends the open line and judges it.
    pub(crate) fn end_line(&mut self) -> Result<(), ObjFault>
        requires fits { self.old.line < 2 ^ 32 - 1 }
        requires triangle_limit { length self.old.triangles.items ≤ MAX_TRIANGLES }
        ensures scale { self.new.scale ≡ self.old.scale }
        ensures same_triangles { OnOk result (self.new.triangles ≡ self.old.triangles) }
        ensures line { OnOk result (self.new.line ≡ self.old.line + 1) }
        ensures corners { OnOk result (corner_count self.new.line_state ≡ 0) }
        ensures next { OnOk result ((mesh_so_far : MeshSoFar) (line : ℕ) (words : List (List ℕ)) →
            Stands self.old mesh_so_far line words →
            (with_line self.old.scale mesh_so_far line words ≡ Ok (so_far self.new))
            × Stands self.new (so_far self.new) (line + 1) []) }
        ensures fault { IfErr result (λ fault. (mesh_so_far : MeshSoFar) (line : ℕ)
            (words : List (List ℕ)) →
            fault ≢ faults.Memory → Stands self.old mesh_so_far line words →
            with_line self.old.scale mesh_so_far line words ≡ Err fault) }
    {
        match self.line_state.finish(self.line) {
            Ok(end) => Ok(self.take_end(end)?),
            Err(fault) => Err(fault),
        }
    }

    /// The triangles of all lines.
    pub(crate) fn into_triangles(self) -> Vec<Tri>
        ensures { result ≡ self.triangles }
    {
        let MeshBuilder { triangles, .. } = self;
        triangles
    }
}
