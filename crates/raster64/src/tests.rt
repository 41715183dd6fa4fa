ghost use Rattle.std.specs.Prelude.{◌≡◌, ◌<◌, ◌≤◌, ◌*◌, take};
ghost use Rattle.geom_core.specs.Coverage.{words_of};
ghost use Rattle.geom_core.specs.Limits.{IsSpot, IsClusterNumber, IsPicture};
ghost use Rattle.geom_core.specs.declared.limits.TheConstants.{TRIANGLES_PER_CLUSTER};

use crate::recorder::{ROOM, Recorder};
use crate::{crossing, for_each_word, pack};
use geom_core::limits::{MAX_DEPTH, MAX_SCREEN_COORDINATE};
use geom_core::{Size, Spot};

const FOUR_BY_FOUR: Size = Size {
    width: 4,
    height: 4,
};

const THREE_BY_FIVE: Size = Size {
    width: 3,
    height: 5,
};

/// A spot of a table.
fn spot(place: (i64, i64, u32)) -> Spot
    ensures { IsSpot result }
{
    let (x, y, z) = place;
    let far = MAX_SCREEN_COORDINATE as i64;
    Spot {
        x: x.clamp(-far, far),
        y: y.clamp(-far, far),
        z: z.clamp(1, MAX_DEPTH),
    }
}

/// The puts of a triangle into a picture of at most 16 pixels.
fn puts_of(a: Spot, b: Spot, c: Spot, cluster: u32, tri: u32, size: Size) -> Recorder
    requires spots { IsSpot a × IsSpot b × IsSpot c }
    requires cluster_limit { IsClusterNumber cluster }
    requires triangle_limit { tri < TRIANGLES_PER_CLUSTER }
    requires picture { IsPicture size }
    requires pixel_limit { size.width * size.height ≤ 16 }
    ensures { take result.count result.puts ≡ words_of a b c cluster tri size }
{
    let mut recorder = Recorder::new();
    for_each_word(a, b, c, cluster, tri, size, &mut recorder);
    recorder
}

/// Whether the recorder's puts are these.
fn has_puts(got: &Recorder, want: &[(u32, u64)]) -> bool {
    if got.count != want.len() {
        return false;
    }
    for (at, put) in want.iter().enumerate() {
        if at >= ROOM || got.puts[at] != *put {
            return false;
        }
    }
    true
}

#[test]
fn puts_each_covered_pixel_ascending(rt: HostRuntime) {
    let left = (16, 48, 536_870_911);
    let right = (48, 48, 536_870_911);
    let upper = (48, 16, 536_870_911);
    let upper_left = (16, 16, 536_870_911);
    let raised = (53, 10, 715_827_882);
    let far_left = (-(1 << 42), -(1 << 42), 1);
    let far_right = (1 << 42, -(1 << 42), 1);
    let far_below = (0, 1 << 42, 1);
    let lower_word = 0x7fff_fffc_0000_0000;
    let slanted_word = 0x88fb_8238_0000_0000;
    let far_word = 0x4_0000_0283;
    let lower: &[(u32, u64)] = &[(6, lower_word), (9, lower_word), (10, lower_word)];
    let other: &[(u32, u64)] = &[(5, 0x7fff_fffc_0000_0001)];
    let slanted: &[(u32, u64)] = &[
        (6, 0x9af2_86b8_0000_0000),
        (9, slanted_word),
        (10, slanted_word),
    ];
    let whole: &[(u32, u64)] = &[
        (0, far_word),
        (1, far_word),
        (2, far_word),
        (3, far_word),
        (4, far_word),
        (5, far_word),
        (6, far_word),
        (7, far_word),
        (8, far_word),
        (9, far_word),
        (10, far_word),
        (11, far_word),
        (12, far_word),
        (13, far_word),
        (14, far_word),
        (15, far_word),
    ];
    let cases = [
        ("below the shared edge", [left, right, upper], 0, 0, lower),
        ("the same from behind", [upper, right, left], 0, 0, lower),
        (
            "above the shared edge",
            [left, upper, upper_left],
            0,
            1,
            other,
        ),
        ("slanted", [left, right, raised], 0, 0, slanted),
        ("one point", [left, left, left], 0, 0, &[]),
        (
            "beyond every edge of the picture",
            [far_left, far_right, far_below],
            5,
            3,
            whole,
        ),
    ];
    for (name, [a, b, c], cluster, tri, want) in cases {
        let got = puts_of(
            spot(a),
            spot(b),
            spot(c),
            cluster % 8,
            tri % 8,
            FOUR_BY_FOUR,
        );
        assert!(rt; has_puts(&got, want), "{name}");
    }
}

#[test]
fn steps_depths_along_spans(rt: HostRuntime) {
    let far = 1 << 42;
    let most = 1_073_741_823;
    let none: &[(u32, u64)] = &[];
    let above: &[(u32, u64)] = &[
        (0, 0x14_0000_0000),
        (1, 0x14_0000_0000),
        (2, 0x14_0000_0000),
        (3, 0x14_0000_0000),
        (4, 0x14_0000_0000),
        (5, 0x14_0000_0000),
    ];
    let below: &[(u32, u64)] = &[(5, 0x14_0000_0000), (6, 0x14_0000_0000)];
    let one: &[(u32, u64)] = &[(5, 0x1c_0000_0000)];
    let near: &[(u32, u64)] = &[
        (0, 0x1934_62d8_0000_0000),
        (1, 0x5bda_2860_0000_0000),
        (2, 0x9e7f_edec_0000_0000),
        (3, 0xe125_b374_0000_0000),
        (4, 0x102a_ecf0_0000_0000),
        (5, 0x52d0_b27c_0000_0000),
        (6, 0x9576_7804_0000_0000),
        (8, 0x721_770c_0000_0000),
        (9, 0x49c7_3c94_0000_0000),
    ];
    let wide: &[(u32, u64)] = &[
        (8, 0x7fff_fffc_0000_0000),
        (9, 0x8000_0000_0000_0000),
        (10, 0x8000_0000_0000_0000),
        (11, 0x8000_0000_0000_0000),
        (12, 0x7fff_fffc_0000_0000),
        (13, 0x7fff_fffc_0000_0000),
        (14, 0x8000_0000_0000_0000),
        (15, 0x8000_0000_0000_0000),
    ];
    let left = (1, 1, 1);
    let right = (63, 5, most);
    let lower = (9, 60, 1);
    let cases = [
        (
            "a sliver between centres",
            [(9, 0, 5), (15, 64, 5), (10, 64, 5)],
            none,
        ),
        (
            "level on a centre, above",
            [(0, 8, 5), (64, 8, 5), (0, 40, 5)],
            above,
        ),
        (
            "level on a centre, below",
            [(0, 40, 5), (64, 40, 5), (32, 8, 5)],
            below,
        ),
        (
            "a corner on a centre",
            [(24, 24, 7), (25, 24, 7), (24, 25, 7)],
            one,
        ),
        (
            "one step to the right",
            [(25, 24, 7), (26, 24, 7), (25, 25, 7)],
            none,
        ),
        (
            "one step to the left",
            [(23, 24, 7), (24, 24, 7), (23, 25, 7)],
            none,
        ),
        ("one step up", [(24, 23, 7), (25, 23, 7), (24, 24, 7)], none),
        ("least and greatest depth", [left, right, lower], near),
        ("the other winding", [left, lower, right], near),
        (
            "the furthest spots",
            [(-far, 20, 1), (far, 28, most), (30, far, 1)],
            wide,
        ),
    ];
    for (name, [a, b, c], want) in cases {
        let got = puts_of(spot(a), spot(b), spot(c), 0, 0, FOUR_BY_FOUR);
        assert!(rt; has_puts(&got, want), "{name}");
    }
}

#[test]
fn numbers_pixels_by_the_width(rt: HostRuntime) {
    let upper_left = spot((0, 0, 1));
    let upper_right = spot((48, 0, 1_073_741_823));
    let lower_left = spot((0, 80, 536_870_912));
    let want: &[(u32, u64)] = &[
        (0, 0x3777_7778_0000_0081),
        (1, 0x8ccc_cccc_0000_0081),
        (2, 0xe222_221c_0000_0081),
        (3, 0x5111_1110_0000_0081),
        (4, 0xa666_6664_0000_0081),
        (6, 0x6aaa_aaa8_0000_0081),
        (9, 0x8444_4444_0000_0081),
    ];
    let windings = [
        (
            "clockwise",
            puts_of(upper_left, upper_right, lower_left, 1, 1, THREE_BY_FIVE),
        ),
        (
            "counter-clockwise",
            puts_of(upper_left, lower_left, upper_right, 1, 1, THREE_BY_FIVE),
        ),
    ];
    for (name, got) in windings {
        assert!(rt; has_puts(&got, want), "{name}");
    }
}

#[test]
fn packs_the_greatest_word(rt: HostRuntime) {
    assert_eq!(rt; pack((1 << 30) - 1, (1 << 27) - 1, 127), u64::MAX);
    assert_eq!(rt; pack(1, 2, 3), 0x4_0000_0103);
    assert_eq!(rt; pack(0, 1, 1), 129);
}

#[test]
fn counts_a_crossing_by_its_direction(rt: HostRuntime) {
    let lower = spot((16, 48, 1));
    let upper = spot((48, 16, 1));
    let cases = [
        ("left of the edge", 23, 40, -1),
        ("on the edge", 24, 40, 0),
        ("right of the edge", 25, 40, 0),
        ("at the lesser y", 40, 16, -1),
        ("above the lesser y", 40, 15, 0),
        ("at the greater y", 0, 48, 0),
    ];
    for (name, x, y, want) in cases {
        let (x, y) = (i64::from(x % 64u8), i64::from(y % 64u8));
        assert_eq!(rt; crossing(lower, upper, x, y), want, "{name}");
        assert_eq!(rt; crossing(upper, lower, x, y), 0 - want, "{name}, turned");
    }
}
