// Sweeping an outline, one sweep line after the other.
ghost use Rattle.std.specs.Prelude.{◌≡◌, ◌+◌, ◌≤◌, length, ◌-ℤ◌, filter, unsigned_abs};
ghost use Rattle.std.specs.List.{AllByRecursion};
ghost use Rattle.edges.specs.Side.{Sound};
ghost use Rattle.outline.specs.Filling.{sweep_line};
ghost use Rattle.outline.specs.Lists.{from_to, in_turn, natural};
ghost use Rattle.outline.specs.Sweep.{live as live_on};
ghost use Rattle.plotters_backend.specs.Run.{all, run};
ghost use Rattle.polygon.specs.Rims.{mixes};
ghost use Rattle.polygon.specs.Sweeping.{Sweepable, least_floor};

use crate::line::SweepLine;
use crate::live::gather;
use crate::marks::mark_edges;
use crate::rims::draw_rims;
use crate::walk::lay_runs;
use edges::side::Edge;
use outline::sweep::Side;
use plotters_backend::BackendCoord;
use plotters_backend::axis::Axis;
use plotters_backend::backend::DrawingBackend;
use plotters_backend::error::DrawingErrorKind;
use plotters_backend::style::BackendColor;
use search::place::least;

// Where the walk over the marks starts: the least floor of the edges, none where there is no edge.
fn least_floor(edges: &[Edge]) -> Option<i32>
    requires { AllByRecursion Sound edges.now }
    ensures { result ≡ least_floor edges.now }
{
    let k = least(edges)?;
    Some(edges[k].floor())
}

// One sweep line up to the cell `high`: the covered cells, and then the pixels of the live sides. There is a mark for each cell, and one more.
// The pools are lent apart, here and in `sweep`.
fn sweep_line<DB: DrawingBackend>(
    back: &mut DB,
    line: SweepLine,
    high: i32,
    sides: &[Side],
    live: &mut [Edge],
    marks: &mut [u8],
    color: BackendColor,
) -> Result<(), DrawingErrorKind<DB::ErrorType>>
    requires held { Sweepable line.low high sides.now }
    requires pool { length sides.now ≤ length live.old }
    requires marks { length marks.old ≡ natural (high -ℤ line.low) + 2 }
    ensures { (result, DB.held back.new) ≡ run DB.surface (DB.held back.old) (all (sweep_line mixes line.axis color line.low high (filter (live_on line.at) sides.now) line.at)) }
{
    let count = gather(sides, line.at, live);
    let edges = &live[0..count];
    mark_edges(edges, line, marks);
    let Some(start) = least_floor(edges) else {
        return Ok(());
    };
    let from = line.index_of(start);
    let end = marks.len() - 1;
    lay_runs(back, line, start, &mut marks[from..end], color)?;
    draw_rims(back, line, marks, color, edges)
}

// The sweep lines of a box, in rising order, by its least and its greatest corner, which have their sweep coordinate first.
pub fn sweep<DB: DrawingBackend>(
    back: &mut DB,
    axis: Axis,
    area: (BackendCoord, BackendCoord),
    sides: &[Side],
    live: &mut [Edge],
    marks: &mut [u8],
    color: BackendColor,
) -> Result<(), DrawingErrorKind<DB::ErrorType>>
    requires near { (unsigned_abs area.0.0 ≤ 32767) × (unsigned_abs area.1.0 ≤ 32767) }
    requires held { Sweepable area.0.1 area.1.1 sides.now }
    requires pool { length sides.now ≤ length live.old }
    requires marks { length marks.old ≡ natural (area.1.1 -ℤ area.0.1) + 2 }
    ensures { (result, DB.held back.new) ≡ run DB.surface (DB.held back.old) (all (in_turn (λ m. sweep_line mixes axis color area.0.1 area.1.1 (filter (live_on m) sides.now) m) (from_to area.0.0 area.1.0))) }
{
    let (least, greatest) = area;
    for m in least.0..greatest.0 + 1 {
        let line = SweepLine {
            axis,
            at: m,
            low: least.1,
        };
        sweep_line(back, line, greatest.1, sides, live, marks, color)?;
    }
    Ok(())
}
