// The walk over the marks of a sweep line.
ghost use Rattle.std.specs.Prelude.{◌≡◌, ℕ, ◌%◌, ◌<◌, ◌||◌, length, if◌then◌else◌, Ok, ◌==◌, nat_lt, slice_index};
ghost use Rattle.outline.specs.Lists.{unlike};
ghost use Rattle.plotters_backend.specs.Run.{all, run};
ghost use Rattle.polygon.specs.Marking.{covers};
ghost use Rattle.polygon.specs.Walking.{covered_cells, inked, Reach, Taken, Walkable};

use crate::line::SweepLine;
use plotters_backend::backend::DrawingBackend;
use plotters_backend::error::DrawingErrorKind;
use plotters_backend::style::BackendColor;
use rasterizer::draw_inner_line;

// Reads a mark after cells with an odd number of turned marks, or an even one: answers the same of the cells up to and with this one, and whether this one is covered.
fn read_mark(odd: bool, mark: u8) -> (bool, bool)
    ensures { result ≡ (unlike (mark % 2 == 1) odd, unlike (mark % 2 == 1) odd || nat_lt 1 mark) }
{
    let parity = if mark % 2 == 1 { !odd } else { odd };
    (parity, parity || mark > 1)
}

// Takes the next cell, covered or not, with the run in hand by its first cell: lays the run that ends before the cell, and answers the run then in hand.
fn take_cell<DB: DrawingBackend>(
    back: &mut DB,
    line: SweepLine,
    hand: Option<i32>,
    covered: bool,
    cell: i32,
    color: BackendColor,
) -> Result<Option<i32>, DrawingErrorKind<DB::ErrorType>>
    requires { Reach line.at hand cell }
    ensures { Taken DB.surface line.axis line.at color hand covered cell (DB.held back.old) (DB.held back.new) result }
{
    match (hand, covered) {
        (None, true) => Ok(Some(cell)),
        (None, false) => Ok(None),
        (Some(first), true) => Ok(Some(first)),
        (Some(first), false) => {
            draw_inner_line(back, line.point(first), line.point(cell - 1), color)?;
            Ok(None)
        }
    }
}

// Walks the marks once, from the cell `first` on: lays each longest run of covered cells, in rising order, and leaves 1 in the mark of a covered cell and 0 in any other.
pub fn lay_runs<DB: DrawingBackend>(
    back: &mut DB,
    line: SweepLine,
    first: i32,
    marks: &mut [u8],
    color: BackendColor,
) -> Result<(), DrawingErrorKind<DB::ErrorType>>
    requires { Walkable line.at first (length marks.old) }
    ensures pixels { (result, DB.held back.new) ≡ run DB.surface (DB.held back.old) (all (inked line.axis line.at color (covered_cells first marks.old))) }
    ensures told { result ≡ Ok tt → (i : ℕ) → i < length marks.old → slice_index marks.new i ≡ (if covers marks.old i then 1 else 0) }
{
    let mut odd = false;
    let mut hand = None;
    // Counted beside the marks: it is needed after the loop too, a `zip` with the cells would lose the marks, and from an index it would have to be cast and added up at each one.
    let mut cell = first;
    for mark in marks.iter_mut() {
        let (parity, covered) = read_mark(odd, *mark);
        *mark = u8::from(covered);
        odd = parity;
        hand = take_cell(back, line, hand, covered, cell, color)?;
        cell += 1;
    }
    let _ = take_cell(back, line, hand, false, cell, color)?;
    Ok(())
}
