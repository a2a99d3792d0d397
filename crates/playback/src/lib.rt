//! Plays a chart script on an archive sheet: what the program `sheetplot` answers, on values.
#![tactic(auto)]

ghost use Rattle.std.specs.Prelude.{◌≡◌, ◌≤◌, [], ◌∷◌, length, IfOk, None};
ghost use Rattle.playback.specs.Playback.{Kept, line_answer, line_draw, lines_answers, played};
ghost use Rattle.playback.specs.Reports.{numbered, reported};
ghost use Rattle.plotters_backend.specs.Refusals.{number, number_of};
ghost use Rattle.run_sheet.specs.Sheets.{grid_of};
ghost use Rattle.script.specs.Text.{lines_of};

use dot_grid::draw::{Draw, carry_out};
use plotters_backend::error::Refusal;
use plotters_backend::style::BackendColor;
use run_sheet::sheet::RunSheet;
use script::{Command, read_draw, read_size, split_line};
use std::alloc::{AllocError, Global};

pub mod report;

use report::Report;

// The most bytes that a script has.
pub const LONGEST: usize = 32768;

// The draw that a line asks for, in opaque black; none where the line is not in its form.
fn draw_of(line: &[u8]) -> Option<Draw>
    ensures { result ≡ line_draw line.now }
{
    let Command::Line(width, from, to) = read_draw(line)?;
    (width == 1).then_some(Draw::Line(from, to, BackendColor::BLACK))
}

// Plays one line after the first: refused as its draw is, or as a line that is not in its form.
pub fn play_line(sheet: &mut RunSheet, line: &[u8]) -> Result<(), Refusal>
    ensures value { (number_of result, grid_of sheet.new) ≡ line_answer (grid_of sheet.old) line.now }
    ensures kept { Kept (number_of result) (grid_of sheet.old) (grid_of sheet.new) }
{
    let draw = draw_of(line).ok_or(Refusal::Line)?;
    carry_out(sheet, draw)?;
    Ok(())
}

// Plays the lines after the first, the first of which is line 2.
fn play_lines(
    heap: Global,
    sheet: &mut RunSheet,
    text: &[u8],
) -> Result<Vec<(u32, Result<(), Refusal>)>, AllocError>
    requires { length text.now ≤ 32768 }
    ensures { IfOk result (λ v. (numbered v.items, grid_of sheet.new) ≡ lines_answers 2 (grid_of sheet.old) (lines_of text.now)) }
{
    let mut answers = Vec::new(heap);
    for (number, line) in (2u32..).zip(text.split_inclusive(|b| *b == b'\n')) {
        let line = line.strip_suffix(b"\n").unwrap_or(line);
        answers.push((number, play_line(sheet, line)))?;
    }
    Ok(answers)
}

// A report of one refusal, and no sheet.
fn refuse(heap: Global, line: u32, refusal: Refusal) -> Result<Report, AllocError>
    ensures { IfOk result (λ v. reported v ≡ (((line, number refusal) ∷ []), None)) }
{
    let mut answers = Vec::new(heap);
    answers.push((line, Err(refusal)))?;
    Ok(Report {
        answers,
        sheet: None,
    })
}

// Plays a script.
pub fn play(heap: Global, text: &[u8]) -> Result<Report, AllocError>
    ensures { IfOk result (λ v. reported v ≡ played text.now) }
{
    if text.len() > LONGEST {
        return refuse(heap, 0, Refusal::Line);
    }
    let (line, rest) = split_line(text);
    let Some(size) = read_size(line) else {
        return refuse(heap, 1, Refusal::Line);
    };
    if let Err(refusal) = RunSheet::check_size(size) {
        return refuse(heap, 1, refusal);
    }
    let mut sheet = RunSheet::new(heap, size)?;
    let answers = play_lines(heap, &mut sheet, rest)?;
    Ok(Report {
        answers,
        sheet: Some(sheet),
    })
}
