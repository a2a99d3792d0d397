// The sheet as text.
ghost use Rattle.std.specs.Prelude.{Some};
ghost use Rattle.run_sheet.specs.Sheets.{grid_of};
ghost use Rattle.run_sheet.specs.Texts.{grid_text};

use crate::sheet::RunSheet;
use std::fmt;

// A line with width, height and number of pairs, and then a line for each pair.
impl fmt::Display for RunSheet {
    ghost output = { λ s. Some (grid_text (grid_of s)) };

    fn fmt<W: fmt::Write>(&self, f: &mut fmt::Formatter<W>) -> fmt::Result {
        let (width, height) = self.size;
        let count = self.pairs.len();
        writeln!(f, "{width} {height} {count}")?;
        for pair in self.pairs.iter() {
            let offset = pair.offset;
            let len = pair.len;
            writeln!(f, "{offset} {len}")?;
        }
        Ok(())
    }
}
