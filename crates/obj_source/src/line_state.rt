ghost use Rattle.std.specs.Prelude.{◌≡◌, ◌∷◌, ◌≤◌, ◌^◌, [], ℕ, List, length, true, Some, Ok, Err, OnOk, IfErr};
ghost use Rattle.geom_core.specs.declared.limits.TheConstants.{MAX_TRIANGLES};
ghost use Rattle.geom_core.specs.Limits.{IsScale};
ghost use Rattle.obj_source.specs.Numerals.{coordinate_of};
ghost use Rattle.obj_source.specs.Mesh.{MeshSoFar, number_at, with_line};
ghost use Rattle.obj_source.specs.LineStates.{corner_count, line_result_from, face_from, with_end, vertex_from};

use crate::faults::{ObjFault, ObjWhy};
use crate::numbers::{NumberWhy, read_coordinate};
use geom_core::Pt;

/// The open line, as far as its words came.
#[derive(Clone, Copy, Debug)]
pub(crate) enum LineState {
    /// No word came.
    Start,
    /// The line is passed over.
    Passed,
    /// A `v` line.
    Vertex(Vertex),
    /// An `f` line.
    Face(Face),
}

/// What the words after a `v` gave.
#[derive(Clone, Copy, Debug)]
pub(crate) enum Vertex {
    /// No word came.
    Nothing,
    /// One word came.
    X(i32),
    /// Two words came.
    Xy(i32, i32),
    /// All numbers came; further words don't matter.
    Whole(Pt),
    /// A word has a fault; further words don't matter.
    Faulty(ObjWhy),
}

/// What the words after an `f` gave.
#[derive(Clone, Copy, Debug)]
pub(crate) struct Face {
    /// The number of words that came.
    pub(crate) corners: u32,
    /// What they gave.
    pub(crate) read: CornersRead,
}

/// What the corners of a face gave.
#[derive(Clone, Copy, Debug)]
pub(crate) enum CornersRead {
    /// Each is a point; this is the polygon that they make.
    Polygon(FanState),
    /// A corner has a fault: that of the first such corner. Further words don't matter.
    Faulty(ObjWhy),
}

/// A polygon, as far as its corners came.
#[derive(Clone, Copy, Debug)]
pub(crate) enum FanState {
    /// No corner came.
    Nothing,
    /// One corner came.
    Corner(Pt),
    /// Two corners or more came; a further one makes a triangle with the first and the last of them.
    Fan {
        /// The first corner.
        first: Pt,
        /// The last corner so far.
        last: Pt,
    },
    /// The triangles so far are too many.
    Over,
}

/// What is wrong with the number at a place of its line.
fn fault_at(place: u32, why: NumberWhy) -> ObjWhy
    ensures { Err result ≡ number_at place (Some (Err why)) }
{
    match why {
        NumberWhy::Bad => ObjWhy::BadNumber(place),
        NumberWhy::Range => ObjWhy::OutOfRange(place),
    }
}

impl LineState {
    /// The line that this first word begins.
    #[tactic(auto, unfolding(crate::specs::LineStates::line_result_from, crate::specs::Mesh::with_line, crate::specs::Mesh::vertex_of, crate::specs::Mesh::face_of))]
    pub(crate) fn from_keyword(kind: &[u8]) -> LineState
        ensures continues { (scale line : ℕ) (mesh_so_far : MeshSoFar) (more : List (List ℕ)) →
            line_result_from scale mesh_so_far line result more
            ≡ with_line scale mesh_so_far line (kind.now ∷ more) }
        ensures corners { corner_count result ≡ 0 }
    {
        match kind {
            [b'v'] => LineState::Vertex(Vertex::Nothing),
            [b'f'] => LineState::Face(Face {
                corners: 0,
                read: CornersRead::Polygon(FanState::Nothing),
            }),
            _ => LineState::Passed,
        }
    }
}

impl LineState {
    /// What the line gives where no word follows: a vertex or nothing.
    #[tactic(auto, unfolding(crate::specs::LineStates::line_result_from, crate::specs::Mesh::with_line))]
    pub(crate) fn finish(&self, line: u32) -> Result<Option<Pt>, ObjFault>
        ensures { (scale : ℕ) (mesh_so_far : MeshSoFar) → length mesh_so_far.triangles ≤ MAX_TRIANGLES →
            line_result_from scale mesh_so_far line self.now [] ≡ with_end mesh_so_far result }
    {
        match self {
            LineState::Start | LineState::Passed => Ok(None),
            LineState::Vertex(vertex) => match vertex.finish() {
                Ok(point) => Ok(Some(point)),
                Err(why) => Err(ObjFault::Line { line, why }),
            },
            LineState::Face(face) => match face.finish(line) {
                Ok(()) => Ok(None),
                Err(fault) => Err(fault),
            },
        }
    }
}

impl Face {
    /// Judges the line where no word follows.
    fn finish(&self, line: u32) -> Result<(), ObjFault>
        ensures line_result { OnOk result ((mesh_so_far : MeshSoFar) →
            length mesh_so_far.triangles ≤ MAX_TRIANGLES →
            face_from mesh_so_far line self.now [] ≡ Ok mesh_so_far) }
        ensures line_fault { IfErr result (λ fault. (mesh_so_far : MeshSoFar) →
            length mesh_so_far.triangles ≤ MAX_TRIANGLES →
            face_from mesh_so_far line self.now [] ≡ Err fault) }
    {
        if self.corners < 3 {
            return Err(ObjFault::Line {
                line,
                why: ObjWhy::ShortFace,
            });
        }
        match self.read {
            CornersRead::Polygon(FanState::Over) => Err(ObjFault::TooMany),
            CornersRead::Polygon(FanState::Nothing | FanState::Corner(_) | FanState::Fan { .. }) =>
                Ok(()),
            CornersRead::Faulty(why) => Err(ObjFault::Line { line, why }),
        }
    }
}

impl Vertex {
    /// The vertex where no word follows.
    fn finish(&self) -> Result<Pt, ObjWhy>
        ensures { (scale : ℕ) → result ≡ vertex_from scale self.now [] }
    {
        match self {
            Vertex::Nothing => Err(ObjWhy::BadNumber(1)),
            Vertex::X(_) => Err(ObjWhy::BadNumber(2)),
            Vertex::Xy(_, _) => Err(ObjWhy::BadNumber(3)),
            Vertex::Whole(point) => Ok(*point),
            Vertex::Faulty(why) => Err(*why),
        }
    }

    /// With the number of one word more.
    fn with_number(self, number: Result<i32, NumberWhy>) -> Vertex
        ensures { (scale : ℕ) (word : List ℕ) (more : List (List ℕ)) →
            coordinate_of scale word ≡ number →
            vertex_from scale result more ≡ vertex_from scale self (word ∷ more) }
    {
        match self {
            Vertex::Nothing => match number {
                Ok(x) => Vertex::X(x),
                Err(why) => Vertex::Faulty(fault_at(1, why)),
            },
            Vertex::X(x) => match number {
                Ok(y) => Vertex::Xy(x, y),
                Err(why) => Vertex::Faulty(fault_at(2, why)),
            },
            Vertex::Xy(x, y) => match number {
                Ok(z) => Vertex::Whole(Pt { x, y, z }),
                Err(why) => Vertex::Faulty(fault_at(3, why)),
            },
            Vertex::Whole(_) | Vertex::Faulty(_) => self,
        }
    }

    /// With one word more.
    pub(crate) fn with_word(self, word: &[u8], scale: u32) -> Vertex
        requires scale_range { IsScale scale }
        ensures { (more : List (List ℕ)) →
            vertex_from scale result more ≡ vertex_from scale self (word.now ∷ more) }
    {
        self.with_number(read_coordinate(word, scale))
    }

    /// Whether no further word matters.
    pub(crate) fn ignores_rest(&self) -> bool
        ensures { (scale : ℕ) (more : List (List ℕ)) → result ≡ true →
            vertex_from scale self.now more ≡ vertex_from scale self.now [] }
    {
        matches!(self, Vertex::Whole(_) | Vertex::Faulty(_))
    }
}
