// The box of an outline.
ghost use Rattle.std.specs.Prelude.{◌≡◌};
ghost use Rattle.std.specs.List.{list_any};
ghost use Rattle.polygon.specs.Boxing.{widened};
ghost use Rattle.polygon.specs.Polygon.{box_of};
ghost use Rattle.rasterizer.specs.Judge.{far};

use plotters_backend::BackendCoord;
use rasterizer::is_far;

// A box by its least and its greatest corner, if there is one, made wide enough for one corner more.
fn widen(
    found: Option<(BackendCoord, BackendCoord)>,
    corner: BackendCoord,
) -> Option<(BackendCoord, BackendCoord)>
    ensures { result ≡ widened found corner }
{
    match found {
        Some((least, greatest)) => Some((
            (least.0.min(corner.0), least.1.min(corner.1)),
            (greatest.0.max(corner.0), greatest.1.max(corner.1)),
        )),
        None => Some((corner, corner)),
    }
}

// The box of an outline by its least and its greatest corner; none where there is no corner.
pub fn bounds(vertices: &[BackendCoord]) -> Option<(BackendCoord, BackendCoord)>
    ensures { result ≡ box_of vertices.now }
{
    let mut found = None;
    for corner in vertices {
        found = widen(found, *corner);
    }
    found
}

// Whether a corner is too far from 0.
pub fn any_far(vertices: &[BackendCoord]) -> bool
    ensures { result ≡ list_any far vertices.now }
{
    vertices.iter().any(|corner| is_far(*corner))
}
