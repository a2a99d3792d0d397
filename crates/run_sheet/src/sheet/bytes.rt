// Writing a sheet into bytes.
ghost use Rattle.std.specs.Prelude.{◌≡◌, ◌+◌, ◌≤◌, ◌++◌, length, take, drop};
ghost use Rattle.dots.specs.Bytes.{word, writes};
ghost use Rattle.run_sheet.specs.Sheets.{grid_of};

use crate::sheet::RunSheet;
use plotters_backend::error::Refusal;

// Writes 32 bits, the lowest byte first.
fn put_word(out: &mut [u8], at: usize, x: u32)
    requires { at + 4 ≤ length out.old }
    ensures { out.new ≡ take at out.old ++ (word x ++ drop (at + 4) out.old) }
{
    let bytes = x.to_le_bytes();
    out[at..at + 4].copy_from_slice(&bytes);
}

impl RunSheet {
    // Writes width, height, the number of pairs and each pair, and answers how many bytes that takes.
    // A shorter buffer is refused, and stays as it was; bytes behind the written ones stay too.
    pub fn write(&self, out: &mut [u8]) -> Result<usize, Refusal>
        ensures { (result, out.new) ≡ writes (grid_of self.now) out.old }
    {
        let count = self.pairs.len();
        let len = 12 + 8 * count;
        if out.len() < len {
            return Err(Refusal::Pool);
        }
        put_word(out, 0, self.size.0);
        put_word(out, 4, self.size.1);
        put_word(out, 8, count as u32);
        for (i, pair) in self.pairs.iter().enumerate() {
            put_word(out, 12 + 8 * i, pair.offset);
            put_word(out, 16 + 8 * i, pair.len);
        }
        Ok(len)
    }
}
