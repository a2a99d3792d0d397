// Filling an outline.
ghost use Rattle.std.specs.Prelude.{◌≡◌, ◌≤◌, false, length, ◌-ℤ◌, if◌then◌else◌, None, int_lt};
ghost use Rattle.std.specs.List.{AllByRecursion};
ghost use Rattle.outline.specs.Filling.{NoHole, NoSpill};
ghost use Rattle.outline.specs.Outline.{flat};
ghost use Rattle.plotters_backend.specs.declared.axis.Axis.TheVariants.{Columns, Rows};
ghost use Rattle.plotters_backend.specs.Run.{all, run};
ghost use Rattle.polygon.specs.Polygon.{Spared, fill, fill_pixels, fill_refusal, judged};
ghost use Rattle.rasterizer.specs.Line.{Near};

use crate::bounds::{any_far, bounds};
use crate::sides::put_sides;
use crate::sweep::sweep;
use edges::side::Edge;
use outline::sweep::Side;
use plotters_backend::BackendCoord;
use plotters_backend::axis::Axis;
use plotters_backend::backend::DrawingBackend;
use plotters_backend::error::{DrawingErrorKind, Refusal};
use plotters_backend::style::BackendColor;
use rasterizer::draw_inner_line;

// The most corners of an outline that is handed in, and how many marks a fill is lent.
const MANY: usize = 1024;

const MARKS: usize = 65536;

// The axis by which a box is swept: by columns if it is strictly wider than tall, else by rows.
fn sweep_axis(least: BackendCoord, greatest: BackendCoord) -> Axis
    requires near { Near least × Near greatest }
    ensures { result ≡ (if int_lt (greatest.1 -ℤ least.1) (greatest.0 -ℤ least.0) then Columns else Rows) }
{
    if greatest.1 - least.1 < greatest.0 - least.0 {
        Axis::Columns
    } else {
        Axis::Rows
    }
}

// Fills an outline of any number of corners within 32,767 of 0, for other draws: it judges nothing.
// The three pools are lent apart, as a caller has them, and each is told of apart.
fn fill_within<DB: DrawingBackend>(
    back: &mut DB,
    vertices: &[BackendCoord],
    color: BackendColor,
    sides: &mut [Side],
    live: &mut [Edge],
    marks: &mut [u8],
) -> Result<(), DrawingErrorKind<DB::ErrorType>>
    requires near { AllByRecursion Near vertices.now }
    requires sides { length sides.old ≡ length vertices.now }
    requires live { length live.old ≡ length vertices.now }
    requires marks { length marks.old ≡ 65536 }
    ensures { (result, DB.held back.new) ≡ run DB.surface (DB.held back.old) (all (fill_pixels color vertices.now)) }
{
    let Some((least, greatest)) = bounds(vertices) else {
        return Ok(());
    };
    if least.0 == greatest.0 || least.1 == greatest.1 {
        return draw_inner_line(back, least, greatest, color);
    }
    let axis = sweep_axis(least, greatest);
    put_sides(axis, vertices, sides);
    let area = (axis.turn(least), axis.turn(greatest));
    let count = (area.1.1 - area.0.1) as usize + 2;
    sweep(back, axis, area, sides, live, &mut marks[0..count], color)
}

// Judges a fill before any work, by its outline and by how many sides, live sides and marks it is lent.
#[tactic(auto, using(crate::proofs::Corners::any_is))]
fn judge(vertices: &[BackendCoord], lent: (usize, usize, usize)) -> Result<(), Refusal>
    ensures { result ≡ judged (fill_refusal vertices.now lent) }
{
    let count = vertices.len();
    if any_far(vertices) {
        return Err(Refusal::Far);
    }
    if count > MANY {
        return Err(Refusal::Many);
    }
    if lent.0 < count || lent.1 < count || lent.2 < MARKS {
        return Err(Refusal::Pool);
    }
    Ok(())
}

// Fills an outline in a colour, which is a style of width 1. It is lent a record for each side, one for each live side, and 65,536 marks.
// No accepted fill in an opaque colour leaves a hole, and no fill of an outline that is not flat spills, whatever it answers.
pub fn fill_polygon<DB: DrawingBackend>(
    back: &mut DB,
    vertices: &[BackendCoord],
    style: &BackendColor,
    sides: &mut [Side],
    live: &mut [Edge],
    marks: &mut [u8],
) -> Result<(), DrawingErrorKind<DB::ErrorType>>
    ensures pixels { (result, DB.held back.new) ≡ run DB.surface (DB.held back.old) (fill vertices.now style.now (length sides.old, length live.old, length marks.old)) }
    ensures hole { NoHole DB.surface vertices.now style.now (DB.held back.old) (result, DB.held back.new) }
    ensures spill { flat vertices.now ≡ false → NoSpill DB.surface vertices.now (DB.held back.old) (result, DB.held back.new) }
    ensures sides { Spared (fill_refusal vertices.now (length sides.old, length live.old, length marks.old)) (length vertices.now) sides.old sides.new }
    ensures live { Spared (fill_refusal vertices.now (length sides.old, length live.old, length marks.old)) (length vertices.now) live.old live.new }
    ensures marks { Spared (fill_refusal vertices.now (length sides.old, length live.old, length marks.old)) 65536 marks.old marks.new }
{
    judge(vertices, (sides.len(), live.len(), marks.len()))?;
    let count = vertices.len();
    fill_within(
        back,
        vertices,
        *style,
        &mut sides[0..count],
        &mut live[0..count],
        &mut marks[0..MARKS],
    )
}
