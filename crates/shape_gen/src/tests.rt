use crate::{box_text, bumpy_box};
use std::test::Fail;

/// The size and the number of a box, and its text from a model apart from this crate.
const TEXTS: [(u32, u32, &str); 2] = [
    (
        1,
        0,
        "v 0 0 0\nv 0 0 2048\nv 0 2048 0\nv 0 2048 2048\nv 2048 0 0\nv 2048 0 2048\n\
         v 2048 2048 0\nv 2048 2048 2048\n\
         f 1 2 4 3\nf 5 7 8 6\nf 1 5 6 2\nf 3 4 8 7\nf 1 3 7 5\nf 2 6 8 4\n",
    ),
    (
        1,
        4_294_967_295,
        "v 122 244 237\nv 145 39 2126\nv 139 2075 54\nv 162 2121 2194\nv 2271 195 139\n\
         v 2294 241 2279\nv 2288 2277 207\nv 2060 2072 2096\n\
         f 1 2 4 3\nf 5 7 8 6\nf 1 5 6 2\nf 3 4 8 7\nf 1 3 7 5\nf 2 6 8 4\n",
    ),
];

#[test]
fn texts_are_those_of_the_model(rt: HostRuntime) -> Result<(), Fail> {
    for (size, number, want) in TEXTS {
        let text = box_text(rt.alloc(), size, number).map_err(|_| "memory")?;
        assert_eq!(rt; text.as_slice(), want.as_bytes());
    }
    Ok(())
}

#[test]
fn a_box_has_twelve_triangles_for_each_cell_of_a_side(rt: HostRuntime) -> Result<(), Fail> {
    let tris = bumpy_box(rt.alloc(), 3, 1).map_err(|_| "memory")?;
    assert_eq!(rt; tris.len(), 108);
    assert_eq!(rt; (tris[0].a.x, tris[0].a.y, tris[0].a.z), (1, 2, 4));
    Ok(())
}
