// What a script's play comes to.
ghost use Rattle.std.specs.Prelude.{Some};
ghost use Rattle.playback.specs.Reports.{report_text, reported};

use plotters_backend::error::{Refusal, number_of};
use run_sheet::sheet::RunSheet;
use std::fmt;

#[derive(Drop)]
pub struct Report {
    // the number of each line that is answered, and its answer
    pub answers: Vec<(u32, Result<(), Refusal>)>,
    // the sheet, where the first line asked for one
    pub sheet: Option<RunSheet>,
}

// A line with number and answer for each line that is answered, and then the sheet, where there is one.
impl fmt::Display for Report {
    ghost output = { λ r. Some (report_text (reported r)) };

    fn fmt<W: fmt::Write>(&self, f: &mut fmt::Formatter<W>) -> fmt::Result {
        for (line, answer) in self.answers.iter() {
            let number = number_of(*answer);
            writeln!(f, "{line} {number}")?;
        }
        match &self.sheet {
            Some(sheet) => write!(f, "{sheet}"),
            None => Ok(()),
        }
    }
}
