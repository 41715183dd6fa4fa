ghost use Rattle.std.specs.Prelude.{◌≡◌, ◌≤◌, ◌-◌, OnOk, length, take, drop};
ghost use Rattle.geom_core.specs.declared.points.Pt.{Pt};
ghost use Rattle.half_mesh.specs.Incidences.{at_point, IsByPoint};

use geom_core::{Memory, Pt};

/// Something that lies at a point, as the number of a triangle at each of its corners.
#[derive(Clone, Copy, Debug)]
pub(crate) struct Incidence<T> {
    /// Where it lies.
    pub point: Pt,
    /// What lies there.
    pub what: T,
}

/// Sorts incidences by point; incidences at one point stay in order. Takes a buffer of up to their length.
pub(crate) fn sort_by_point<T>(incidences: &mut Vec<Incidence<T>>) -> Result<(), Memory>
    ensures sorted { OnOk result (IsByPoint incidences.new.items) }
    ensures groups { (p : Pt) → at_point p incidences.new.items ≡ at_point p incidences.old.items }
{
    incidences.sort_by_key(|incidence| incidence.point)?;
    Ok(())
}

/// Where the incidences at `p` begin and end.
pub(crate) fn range_at<T>(incidences: &[Incidence<T>], p: Pt) -> (usize, usize)
    requires sorted { IsByPoint incidences.now }
    ensures bounds { (result.0 ≤ result.1) × (result.1 ≤ length incidences.now) }
    ensures group { take (result.1 - result.0) (drop result.0 incidences.now) ≡ at_point p incidences.now }
{
    let from = incidences.partition_point(|incidence| incidence.point < p);
    let to = incidences.partition_point(|incidence| incidence.point <= p);
    (from, to)
}
