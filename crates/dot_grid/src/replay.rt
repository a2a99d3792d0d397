// Draws in turn, whatever each answers.
ghost use Rattle.std.specs.Prelude.{◌≡◌, ◌+◌, ◌≤◌, ◌++◌, length, vec_len, vec_capacity, MatchResult};
ghost use Rattle.dot_grid.specs.Replay.{replayed};

use crate::draw::{Answer, Draw, carry_out};
use crate::pile::OnSheet;
use std::alloc::{AllocError, Global};

// Adds the answers to those that are there; there is room for them.
pub(super) fn replay_into<B: OnSheet>(back: &mut B, draws: &[Draw], answers: &mut Vec<Answer>)
    requires { vec_len answers.old + length draws.now ≤ vec_capacity answers.old }
    ensures answers { answers.new.items ≡ answers.old.items ++ (replayed (B.layers back.old) (B.dots back.old) draws.now).0 }
    ensures holds { B.dots back.new ≡ (replayed (B.layers back.old) (B.dots back.old) draws.now).1 }
    ensures layers { B.layers back.new ≡ B.layers back.old }
{
    for draw in draws {
        let answer = carry_out(back, *draw);
        let _ = answers.push(answer);
    }
}

// The answers and the dots are those of the grid under the pile. Where there is no memory for the answers nothing is drawn.
pub fn replay<B: OnSheet>(
    heap: Global,
    back: &mut B,
    draws: &[Draw],
) -> Result<Vec<Answer>, AllocError>
    ensures value { MatchResult result (λ v. (v.items, B.dots back.new) ≡ replayed (B.layers back.old) (B.dots back.old) draws.now) (λ _. B.dots back.new ≡ B.dots back.old) }
    ensures layers { B.layers back.new ≡ B.layers back.old }
{
    let mut answers = Vec::with_capacity(heap, draws.len())?;
    replay_into(back, draws, &mut answers);
    Ok(answers)
}
