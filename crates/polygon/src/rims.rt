// The pixels of edges whose place is not whole.
ghost use Rattle.std.specs.Prelude.{◌≡◌, length, pos, ◌+ℤ◌, ◌≤ℤ◌, ◌<ℤ◌};
ghost use Rattle.std.specs.List.{AllByRecursion};
ghost use Rattle.outline.specs.Lists.{in_turn};
ghost use Rattle.plotters_backend.specs.Run.{all, run};
ghost use Rattle.polygon.specs.Marking.{Among};
ghost use Rattle.polygon.specs.Rims.{bare_by, blends, rim};

use crate::line::SweepLine;
use edges::side::Edge;
use plotters_backend::axis::Axis;
use plotters_backend::backend::DrawingBackend;
use plotters_backend::error::DrawingErrorKind;
use plotters_backend::style::BackendColor;

// By what the pixels at floor and at ceil of a place are mixed.
fn blend(axis: Axis, place: f64) -> (f64, f64)
    ensures { result ≡ blends axis place }
{
    match axis {
        Axis::Columns => (place.ceil() - place, place - place.floor()),
        Axis::Rows => (place.ceil() - place, place.floor() - place),
    }
}

// A pixel at a cell, only if the mark of the cell is 0.
fn draw_bare<DB: DrawingBackend>(
    back: &mut DB,
    line: SweepLine,
    marks: &[u8],
    cell: i32,
    color: BackendColor,
) -> Result<(), DrawingErrorKind<DB::ErrorType>>
    requires from { line.low ≤ℤ cell }
    requires upto { cell <ℤ (line.low +ℤ pos (length marks.now)) }
    requires small { cell ≤ℤ pos 32768 }
    ensures { (result, DB.held back.new) ≡ run DB.surface (DB.held back.old) (all (bare_by line.axis line.at line.low marks.now cell color)) }
{
    if marks[line.index_of(cell)] == 0 {
        return back.draw_pixel(line.point(cell), color);
    }
    Ok(())
}

// The two pixels of an edge whose place is not whole, each only if the mark of its cell is 0.
fn draw_rim<DB: DrawingBackend>(
    back: &mut DB,
    line: SweepLine,
    marks: &[u8],
    color: BackendColor,
    edge: &Edge,
) -> Result<(), DrawingErrorKind<DB::ErrorType>>
    requires { Among line.low (length marks.now) edge.now }
    ensures { (result, DB.held back.new) ≡ run DB.surface (DB.held back.old) (all (rim line.axis line.at line.low marks.now color edge.now)) }
{
    let floor = edge.floor();
    let ceil = edge.ceil();
    if floor == ceil {
        return Ok(());
    }
    let (below, above) = blend(line.axis, edge.get_slave_pos());
    draw_bare(back, line, marks, floor, color.mix(below))?;
    draw_bare(back, line, marks, ceil, color.mix(above))
}

// The pixels of each edge whose place is not whole, in the order of the edges.
pub fn draw_rims<DB: DrawingBackend>(
    back: &mut DB,
    line: SweepLine,
    marks: &[u8],
    color: BackendColor,
    edges: &[Edge],
) -> Result<(), DrawingErrorKind<DB::ErrorType>>
    requires { AllByRecursion (Among line.low (length marks.now)) edges.now }
    ensures { (result, DB.held back.new) ≡ run DB.surface (DB.held back.old) (all (in_turn (rim line.axis line.at line.low marks.now color) edges.now)) }
{
    for edge in edges {
        draw_rim(back, line, marks, color, edge)?;
    }
    Ok(())
}
