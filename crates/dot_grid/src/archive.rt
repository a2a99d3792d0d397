// Two sheets, drawn on and written.
ghost use Rattle.std.specs.Prelude.{◌≡◌, ◌≤◌, true, vec_len};
ghost use Rattle.dot_grid.specs.Archive.{Archives, ToldApart};
ghost use Rattle.dots.specs.Bytes.{written};
ghost use Rattle.dots.specs.Grid.{whole};
ghost use Rattle.run_sheet.specs.Sheets.{grid_of};

use crate::draw::{Answer, Draw};
use crate::pile::OnSheet;
use crate::replay::replay_into;
use run_sheet::sheet::RunSheet;
use std::alloc::{AllocError, Global};

// The bytes of a sheet with 4,096 pairs.
const LONGEST: usize = 32780;

// The answers to some draws on a sheet, and the sheet as written after them.
#[derive(Drop)]
pub struct Archived {
    pub answers: Vec<Answer>,
    pub bytes: Vec<u8>,
}

// Writes a sheet over bytes that are enough for any.
fn write_over(sheet: &RunSheet, bytes: &mut Vec<u8>)
    requires { 32780 ≤ vec_len bytes.old }
    ensures bytes { bytes.new.items ≡ written (grid_of sheet.now) }
    ensures whole { whole (grid_of sheet.now) ≡ true }
{
    // By the pairs, since that there are at most 4,096 of them is why the bytes suffice.
    let len = 12 + 8 * sheet.pairs().len();
    let _ = sheet.write(bytes.as_mut_slice());
    bytes.truncate(len);
}

// Draws on each of two sheets, each under a pile of its own, and writes both: the bytes are equal exactly when the dots are.
// Where there is no memory nothing is drawn. The two sheets are apart by name, since they are what is compared.
pub fn archive_both<A: OnSheet, B: OnSheet>(
    heap: Global,
    first: &mut A,
    first_draws: &[Draw],
    second: &mut B,
    second_draws: &[Draw],
) -> Result<(Archived, Archived), AllocError>
    ensures first { Archives result (λ v. v.0) (A.layers first.old) (A.dots first.old) first_draws.now (A.dots first.new) }
    ensures second { Archives result (λ v. v.1) (B.layers second.old) (B.dots second.old) second_draws.now (B.dots second.new) }
    ensures told { ToldApart result (A.dots first.new) (B.dots second.new) }
{
    let mut first_answers = Vec::with_capacity(heap, first_draws.len())?;
    let mut second_answers = Vec::with_capacity(heap, second_draws.len())?;
    let mut first_bytes = vec![in heap; 0u8; LONGEST]?;
    let mut second_bytes = vec![in heap; 0u8; LONGEST]?;
    replay_into(first, first_draws, &mut first_answers);
    replay_into(second, second_draws, &mut second_answers);
    write_over(first.sheet(), &mut first_bytes);
    write_over(second.sheet(), &mut second_bytes);
    Ok((
        Archived {
            answers: first_answers,
            bytes: first_bytes,
        },
        Archived {
            answers: second_answers,
            bytes: second_bytes,
        },
    ))
}
