// The rows of the table of worked draws in docs/RULES.md, played and printed. The file stdout is that table, written by hand.
#![tactic(auto)]

use dot_grid::draw::{Answer, Draw, answer_number, carry_out};
use dot_grid::replay::replay;
use plotters_backend::style::BackendColor;
use run_sheet::sheet::RunSheet;
use std::io;

// Prints the numbers of some answers.
fn print_answers(rt: &HostRuntime, answers: &[Answer]) -> io::Result<()> {
    for answer in answers {
        let number = answer_number(*answer);
        print!(rt; " {number}")?;
    }
    Ok(())
}

// Prints the pairs of a sheet as the rows show them, on one line and with no size, which is not how a sheet displays.
fn print_pairs(rt: &HostRuntime, sheet: &RunSheet) -> io::Result<()> {
    for pair in sheet.pairs() {
        let offset = pair.offset;
        let len = pair.len;
        print!(rt; " {offset}+{len}")?;
    }
    Ok(())
}

// Plays some draws on a light sheet, and prints what they answer and leave.
fn row(rt: &HostRuntime, name: &str, size: (u32, u32), draws: &[Draw]) -> io::Result<()> {
    let mut sheet = RunSheet::new(rt.alloc(), size)?;
    let answers = replay(rt.alloc(), &mut sheet, draws)?;
    print!(rt; "{name}:")?;
    print_answers(rt, answers.as_slice())?;
    print!(rt; " |")?;
    print_pairs(rt, &sheet)?;
    println!(rt; "")
}

// Draws one dot more, and prints the answer and how many pairs there are then.
fn one_more(
    rt: &HostRuntime,
    sheet: &mut RunSheet,
    name: &str,
    point: (i32, i32),
    color: BackendColor,
) -> io::Result<()> {
    let number = answer_number(carry_out(sheet, Draw::Pixel(point, color)));
    let count = sheet.pairs().len();
    println!(rt; "{name}: {number} | {count} pairs")
}

// Darkens the even places of a row of 128.
fn darken_even(sheet: &mut RunSheet, y: i32) {
    for k in 0..64u8 {
        let _ = carry_out(
            sheet,
            Draw::Pixel((i32::from(2 * k), y), BackendColor::BLACK),
        );
    }
}

// A sheet of 128 by 128 whose even offsets below 8,192 are dark: 4,096 pairs.
fn full_sheet(rt: &HostRuntime) -> io::Result<RunSheet> {
    let mut sheet = RunSheet::new(rt.alloc(), (128, 128))?;
    for y in 0..64 {
        darken_even(&mut sheet, y);
    }
    Ok(sheet)
}

fn dot(offset: i32) -> Draw {
    Draw::Pixel((offset, 0), BackendColor::BLACK)
}

fn main(rt: HostRuntime) -> io::Result<()> {
    row(
        &rt,
        "line (0,0)-(3,3)",
        (8, 8),
        &[Draw::Line((0, 0), (3, 3), BackendColor::BLACK)],
    )?;
    row(&rt, "dot 0", (8, 8), &[dot(0)])?;
    row(&rt, "dots 0 2", (8, 8), &[dot(0), dot(2)])?;
    row(&rt, "dots 0 2 1", (8, 8), &[dot(0), dot(2), dot(1)])?;
    row(
        &rt,
        "x = 16384",
        (16384, 1),
        &[Draw::Line((0, 0), (16384, 0), BackendColor::BLACK)],
    )?;
    row(
        &rt,
        "x = 16385",
        (16384, 1),
        &[Draw::Line((0, 0), (16385, 0), BackendColor::BLACK)],
    )?;
    row(
        &rt,
        "x = -16384",
        (16384, 1),
        &[Draw::Line((3, 0), (-16384, 0), BackendColor::BLACK)],
    )?;
    row(
        &rt,
        "x = -16385",
        (16384, 1),
        &[Draw::Line((3, 0), (-16385, 0), BackendColor::BLACK)],
    )?;
    row(&rt, "size refused", (8, 16385), &[dot(0)])?;
    let mut sheet = full_sheet(&rt)?;
    one_more(&rt, &mut sheet, "a lone dot", (0, 100), BackendColor::BLACK)?;
    one_more(
        &rt,
        &mut sheet,
        "a dot joining two pairs",
        (1, 0),
        BackendColor::BLACK,
    )?;
    one_more(&rt, &mut sheet, "a lone dot", (0, 100), BackendColor::BLACK)?;
    one_more(
        &rt,
        &mut sheet,
        "a light dot splitting a pair",
        (1, 0),
        BackendColor::WHITE,
    )?;
    one_more(
        &rt,
        &mut sheet,
        "a dot that is dark already",
        (1, 0),
        BackendColor::BLACK,
    )?;
    one_more(
        &rt,
        &mut sheet,
        "a dot that lengthens a pair",
        (1, 100),
        BackendColor::BLACK,
    )
}
