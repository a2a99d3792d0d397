// The marks of a sweep line.
ghost use Rattle.std.specs.Prelude.{◌≡◌, length};
ghost use Rattle.std.specs.List.{AllByRecursion};
ghost use Rattle.polygon.specs.Marking.{Among, Marked, taken_up};

use crate::line::SweepLine;
use edges::side::Edge;

// Takes up an edge: turns the mark after its floor, and notes the mark at its place if that is whole.
fn take_up(edge: &Edge, line: SweepLine, marks: &mut [u8])
    requires { Among line.low (length marks.old) edge.now }
    ensures { marks.new ≡ taken_up line.low edge.now marks.old }
{
    let floor = edge.floor();
    let at = line.index_of(floor);
    marks[at + 1] ^= 1;
    if floor == edge.ceil() {
        marks[at] |= 2;
    }
}

// Clears the marks, and takes up each edge once, as it lies.
pub fn mark_edges(edges: &[Edge], line: SweepLine, marks: &mut [u8])
    requires { AllByRecursion (Among line.low (length marks.old)) edges.now }
    ensures { Marked edges.now line.low marks.new }
{
    marks.fill(0);
    for edge in edges {
        take_up(edge, line, marks);
    }
}
