// Lines of width 1.
ghost use Rattle.std.specs.Prelude.{◌≡◌, ◌<◌, ◌≤◌, ◌-ℤ◌, ◌<ℤ◌, unsigned_abs};
ghost use Rattle.binary64.specs.Range.{Sized};
ghost use Rattle.plotters_backend.specs.Run.{all, run};
ghost use Rattle.rasterizer.specs.Line.{along, blended, inner_line, line, rising, slanting, sloped, straight, thin, Near};

use crate::judge::{FAR, NEAR, check_ends};
use binary64::{floor_to_i32, gradient};
use plotters_backend::BackendCoord;
use plotters_backend::axis::Axis;
use plotters_backend::backend::DrawingBackend;
use plotters_backend::error::DrawingErrorKind;
use plotters_backend::style::BackendColor;

// The cells between two ends on one row, or on one column where the axis is rows, in rising order.
fn draw_straight<DB: DrawingBackend>(
    back: &mut DB,
    axis: Axis,
    row: i32,
    ends: (i32, i32),
    color: BackendColor,
) -> Result<(), DrawingErrorKind<DB::ErrorType>>
    requires { Near ends }
    ensures { (result, DB.held back.new) ≡ run DB.surface (DB.held back.old) (all (straight axis row ends color)) }
{
    let first = ends.0.min(ends.1);
    let last = ends.0.max(ends.1);
    for x in first..last + 1 {
        back.draw_pixel(axis.turn((x, row)), color)?;
    }
    Ok(())
}

// The two pixels on either side of the height y.
fn draw_blended<DB: DrawingBackend>(
    back: &mut DB,
    axis: Axis,
    x: i32,
    y: f64,
    color: BackendColor,
) -> Result<(), DrawingErrorKind<DB::ErrorType>>
    requires { Sized 131072 y }
    ensures { (result, DB.held back.new) ≡ run DB.surface (DB.held back.old) (all (blended axis color x y)) }
{
    let row = floor_to_i32(y);
    back.draw_pixel(axis.turn((x, row)), color.mix(1.0 + y.floor() - y))?;
    back.draw_pixel(axis.turn((x, row + 1)), color.mix(y - y.floor()))
}

// The steps of a slanting line that goes across from the first end to the one before the last.
// Points are pairs of numbers everywhere, so each function here asks that its two ends are near; no type says it.
fn draw_sloped<DB: DrawingBackend>(
    back: &mut DB,
    axis: Axis,
    from: BackendCoord,
    to: BackendCoord,
    color: BackendColor,
) -> Result<(), DrawingErrorKind<DB::ErrorType>>
    requires near { Near from × Near to }
    requires rises { from.0 <ℤ to.0 }
    requires wide { unsigned_abs (to.1 -ℤ from.1) ≤ unsigned_abs (to.0 -ℤ from.0) }
    ensures { (result, DB.held back.new) ≡ run DB.surface (DB.held back.old) (all (sloped axis from to color)) }
{
    let grad = gradient(to.0 - from.0, to.1 - from.1);
    let mut y = f64::from(from.1);
    for x in from.0..to.0 {
        draw_blended(back, axis, x, y, color)?;
        y += grad;
    }
    Ok(())
}

// The same steps, and then the last end.
fn draw_rising<DB: DrawingBackend>(
    back: &mut DB,
    axis: Axis,
    from: BackendCoord,
    to: BackendCoord,
    color: BackendColor,
) -> Result<(), DrawingErrorKind<DB::ErrorType>>
    requires near { Near from × Near to }
    requires rises { from.0 <ℤ to.0 }
    requires wide { unsigned_abs (to.1 -ℤ from.1) ≤ unsigned_abs (to.0 -ℤ from.0) }
    ensures { (result, DB.held back.new) ≡ run DB.surface (DB.held back.old) (all (rising axis from to color)) }
{
    draw_sloped(back, axis, from, to, color)?;
    back.draw_pixel(axis.turn(to), color)
}

// The axis along which a line is longer: columns unless it is taller than wide.
fn longer_axis(from: BackendCoord, to: BackendCoord) -> Axis
    ensures { result ≡ along from to }
{
    if from.0.abs_diff(to.0) < from.1.abs_diff(to.1) {
        Axis::Rows
    } else {
        Axis::Columns
    }
}

// A line that is not upright.
fn draw_slanting<DB: DrawingBackend>(
    back: &mut DB,
    from: BackendCoord,
    to: BackendCoord,
    color: BackendColor,
) -> Result<(), DrawingErrorKind<DB::ErrorType>>
    requires near { Near from × Near to }
    requires slants { (from.0 ≡ to.0) → ⊥ }
    ensures { (result, DB.held back.new) ≡ run DB.surface (DB.held back.old) (all (slanting from to color)) }
{
    let axis = longer_axis(from, to);
    let first = axis.turn(from);
    let last = axis.turn(to);
    if last.0 < first.0 {
        draw_rising(back, axis, last, first, color)
    } else {
        draw_rising(back, axis, first, last, color)
    }
}

// The line between any two points within 32,767 of 0, for other draws: it judges nothing.
pub fn draw_thin<DB: DrawingBackend>(
    back: &mut DB,
    from: BackendCoord,
    to: BackendCoord,
    color: BackendColor,
) -> Result<(), DrawingErrorKind<DB::ErrorType>>
    requires { Near from × Near to }
    ensures { (result, DB.held back.new) ≡ run DB.surface (DB.held back.old) (all (thin from to color)) }
{
    if color.alpha == 0.0 {
        return Ok(());
    }
    if from.0 == to.0 {
        return draw_straight(back, Axis::Rows, from.0, (from.1, to.1), color);
    }
    if from.1 == to.1 {
        return draw_straight(back, Axis::Columns, from.1, (from.0, to.0), color);
    }
    draw_slanting(back, from, to, color)
}

// The line of width 1 that other draws are built on: its ends may lie within 32,767 of 0, and it is refused where one does not.
pub fn draw_inner_line<DB: DrawingBackend>(
    back: &mut DB,
    from: BackendCoord,
    to: BackendCoord,
    color: BackendColor,
) -> Result<(), DrawingErrorKind<DB::ErrorType>>
    ensures { (result, DB.held back.new) ≡ run DB.surface (DB.held back.old) (inner_line from to color) }
{
    check_ends(NEAR, from, to)?;
    draw_thin(back, from, to, color)
}

// The line between two points in a colour, which is a style of width 1.
pub fn draw_line<DB: DrawingBackend>(
    back: &mut DB,
    from: BackendCoord,
    to: BackendCoord,
    style: &BackendColor,
) -> Result<(), DrawingErrorKind<DB::ErrorType>>
    ensures { (result, DB.held back.new) ≡ run DB.surface (DB.held back.old) (line from to style.now) }
{
    check_ends(FAR, from, to)?;
    draw_thin(back, from, to, *style)
}
