//! Laws of bumpy boxes, as functions without a body: each clause holds for all that it names.

ghost use Rattle.std.specs.Prelude.{◌≡◌, ℕ, pos, Ok};
ghost use Rattle.geom_core.specs.declared.points.Pt.{Pt};
ghost use Rattle.geom_core.specs.EdgeSum.{edge_sum};
ghost use Rattle.obj_source.specs.Mesh.{mesh};
ghost use Rattle.shape_gen.specs.Boxes.{triangles_of_box};
ghost use Rattle.shape_gen.specs.BoxText.{text_of_box};
ghost use Rattle.shape_gen.specs.Lattice.{IsBoxSize};

/// A box of any size and number is closed: each edge of its triangles is there as often one way as
/// the other.
pub fn boxes_are_closed()
    ensures { (n number : ℕ) (u v : Pt) → edge_sum (triangles_of_box n number) u v ≡ pos 0 }
{}

/// The text of a box reads back as the box: at one grid step to the unit, the mesh of the text is
/// exactly the box's triangles in their order, so no line of the text is refused or passed over,
/// and no triangle is dropped.
pub fn box_texts_read_back()
    ensures { (n number : ℕ) → IsBoxSize n →
        mesh 1 (text_of_box n number) ≡ Ok (triangles_of_box n number) }
{}
