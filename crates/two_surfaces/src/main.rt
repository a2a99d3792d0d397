// One script, drawn through windows on a panel and on a sheet, and both printed. The file stdout is written by hand from docs/RULES.md.
#![tactic(auto)]

use dot_grid::draw::{Draw, carry_out};
use panel::panel::Panel;
use plotters_backend::backend::DrawingBackend;
use plotters_backend::style::BackendColor;
use run_sheet::sheet::RunSheet;
use script::{Command, read_draw};
use std::io;
use window::Window;

// Drawn through one window, and then through a window in it.
const OUTER: [&str; 3] = ["L 1 -3 0 9 0", "L 1 0 3 4 1", "L 1 0 0 16385 0"];

const INNER: [&str; 1] = ["L 1 0 -4 0 9"];

// Carries out the lines of a script on any surface, and counts those that are refused.
fn draw_script<DB: DrawingBackend>(back: &mut DB, lines: &[&str]) -> u32
where
    <DB as DrawingBackend>::ErrorType: Drop,
{
    let mut refused = 0u32;
    for line in lines {
        if let Some(Command::Line(_, from, to)) = read_draw(line.as_bytes()) {
            if carry_out(back, Draw::Line(from, to, BackendColor::BLACK)).is_err() {
                refused = refused.saturating_add(1);
            }
        }
    }
    refused
}

// Draws through one window, and then through a window in it, and gives the surface back.
fn draw_piled<DB: DrawingBackend>(back: DB) -> (u32, DB)
where
    <DB as DrawingBackend>::ErrorType: Drop,
{
    let mut outer = Window::new(back, (2, 1), (5, 4));
    let refused = draw_script(&mut outer, &OUTER);
    let mut inner = Window::new(outer, (1, 1), (3, 2));
    let more = draw_script(&mut inner, &INNER);
    (
        refused.saturating_add(more),
        inner.into_inner().into_inner(),
    )
}

// A dark dot as #, a light one as a point.
fn sheet_mark(dot: Option<bool>) -> char {
    match dot {
        Some(true) => '#',
        _ => '.',
    }
}

// A black cell as #, a white one as a point, any other as +.
fn panel_mark(cell: Option<(u8, u8, u8)>) -> char {
    match cell {
        Some((0, 0, 0)) => '#',
        Some((255, 255, 255)) => '.',
        _ => '+',
    }
}

// Prints a row of eight marks, each by its place in the row.
fn print_row<F: Fn(i32) -> char>(rt: &HostRuntime, mark_at: F) -> io::Result<()>
    requires { F.IsAlwaysCallable mark_at }
{
    for x in 0..8 {
        let mark = mark_at(x);
        print!(rt; "{mark}")?;
    }
    Ok(())
}

fn main(rt: HostRuntime) -> io::Result<()> {
    let mut bytes = vec![in rt.alloc(); 255u8; 144]?;
    let (on_panel, panel) = draw_piled(Panel::new((8, 6), bytes.as_mut_slice()));
    let (on_sheet, sheet) = draw_piled(RunSheet::new(rt.alloc(), (8, 6))?);
    println!(rt; "refused: {on_panel} {on_sheet}")?;
    for y in 0..6 {
        print_row(&rt, |x| panel_mark(panel.cell((x, y))))?;
        print!(rt; " ")?;
        print_row(&rt, |x| sheet_mark(sheet.dot((x, y))))?;
        println!(rt; "")?;
    }
    Ok(())
}
