// Reads the lines of a chart script from bytes.
#![tactic(auto)]

ghost use Rattle.std.specs.Prelude.{◌≡◌, ℕ, ◌+◌, ◌^◌, ◌<◌, ◌≤◌, ◌∷◌, ◌++◌, length, take, drop, if◌then◌else◌, Some, None, IfSome, MatchOption, ◌≢◌, slice_index};
ghost use Rattle.std.specs.Option.{option_map};
ghost use Rattle.std.specs.Str.Parse.{digits_value};
ghost use Rattle.std.specs.Str.{all_ascii_digits};
ghost use Rattle.arrayvec.specs.ArrayVec.{array_vec_len};
ghost use Rattle.script.specs.Commands.{size_of, size_line, point_of, ends_of, draw_of, draw_line, outline_of, fill_of, fill_line, width_and_points};
ghost use Rattle.script.specs.Numbers.{number, coordinate};
ghost use Rattle.script.specs.Tells.{Tells};
ghost use Rattle.script.specs.Text.{pieces, pieces_after, less_last, lines_of, Splits};
ghost use Rattle.script.specs.Written.{IsSize, IsLine, IsFill};

use arrayvec::ArrayVec;

// The most points that a line `F width x y ..` has.
pub const MOST_POINTS: usize = 64;

// What a drawing line asks for.
#[derive(Clone, Copy)]
pub enum Command {
    // a line of a width, from a point to a point
    Line(u32, (i32, i32), (i32, i32)),
}

// The piece before the first byte `at`, and what follows that byte where there is one.
fn cut(text: &[u8], at: u8) -> (&[u8], Option<&[u8]>)
    ensures parts { pieces at text.now ≡ result.0.now ∷ pieces_after at result.1 }
    ensures lines { 0 < length text.now → less_last (pieces at text.now) ≡ result.0.now ∷ less_last (pieces_after at result.1) }
    ensures shorter { MatchOption result.1 (length result.0.now ≡ length text.now) (λ rest. length rest.now < length text.now) }
    ensures lacks { (k : ℕ) → k < length result.0.now → slice_index result.0.now k ≢ at }
    ensures whole { MatchOption result.1 (text.now ≡ result.0.now) (λ rest. text.now ≡ result.0.now ++ at ∷ rest.now) }
{
    match text.iter().position(|b| *b == at) {
        Some(end) => (&text[..end], Some(&text[end + 1..])),
        None => (text, None),
    }
}

// The first line of a text, and the text after it.
pub fn split_line(text: &[u8]) -> (&[u8], &[u8])
    ensures lines { 0 < length text.now → lines_of text.now ≡ result.0.now ∷ lines_of result.1.now }
    ensures shorter { 0 < length text.now → length result.1.now < length text.now }
    ensures empty { length text.now ≡ 0 → (length result.0.now ≡ 0) × (length result.1.now ≡ 0) }
    ensures splits { Splits text.now result.0.now result.1.now }
{
    let (line, rest) = cut(text, b'\n');
    (line, rest.unwrap_or(&[]))
}

// The number that at most six digits write.
#[tactic(auto, using(crate::proofs::Figures::value_so_far))]
fn digits(word: &[u8]) -> Option<u32>
    requires { length word.now ≤ 6 }
    ensures value { result ≡ (if all_ascii_digits word.now then Some (digits_value 10 word.now) else None) }
    ensures small { IfSome result (λ n. n < 10 ^ 6) }
{
    let mut n = 0;
    for b in word {
        if !b.is_ascii_digit() {
            return None;
        }
        n = n * 10 + u32::from(*b - b'0');
    }
    Some(n)
}

// The number that one to six digits write.
fn number(word: &[u8]) -> Option<u32>
    ensures value { result ≡ number word.now }
    ensures small { IfSome result (λ n. n < 10 ^ 6) }
{
    if word.is_empty() || word.len() > 6 {
        return None;
    }
    digits(word)
}

// The number that a word writes, with or without one minus before it.
fn coordinate(word: &[u8]) -> Option<i32>
    ensures value { result ≡ coordinate word.now }
{
    match word.strip_prefix(b"-") {
        Some(unsigned) => Some(-(number(unsigned)? as i32)),
        None => Some(number(word)? as i32),
    }
}

// The point that the first two words of a text write, and the text after them.
fn point(text: &[u8]) -> Option<((i32, i32), Option<&[u8]>)>
    ensures value { option_map (λ p. p.0) result ≡ point_of (pieces 32 text.now) }
    ensures rest { IfSome result (λ p. (length (pieces 32 text.now) ≡ 2 + length (pieces_after 32 p.1)) × (drop 2 (pieces 32 text.now) ≡ pieces_after 32 p.1)) }
{
    let (x, rest) = cut(text, b' ');
    let (y, rest) = cut(rest?, b' ');
    Some(((coordinate(x)?, coordinate(y)?), rest))
}

// The two points that the words `x y x y` write.
fn ends(text: &[u8]) -> Option<((i32, i32), (i32, i32))>
    ensures value { result ≡ ends_of (pieces 32 text.now) }
{
    let (from, rest) = point(text)?;
    let (to, rest) = point(rest?)?;
    rest.is_none().then_some((from, to))
}

// The size that the words `w h` write.
fn size(text: &[u8]) -> Option<(u32, u32)>
    ensures value { result ≡ size_of (pieces 32 text.now) }
{
    let (width, rest) = cut(text, b' ');
    let (height, rest) = cut(rest?, b' ');
    let size = (number(width)?, number(height)?);
    rest.is_none().then_some(size)
}

// The command that the words `width x y x y` write.
fn drawing(text: &[u8]) -> Option<Command>
    ensures value { result ≡ draw_of (pieces 32 text.now) }
{
    let (word, rest) = cut(text, b' ');
    let width = number(word)?;
    let (from, to) = ends(rest?)?;
    Some(Command::Line(width, from, to))
}

// The size that a line `S w h` asks for.
pub fn read_size(line: &[u8]) -> Option<(u32, u32)>
    ensures value { result ≡ size_line line.now }
    ensures exactly { Tells (IsSize line.now) result }
{
    size(line.strip_prefix(b"S ")?)
}

// What a line `L width x y x y` asks for.
pub fn read_draw(line: &[u8]) -> Option<Command>
    ensures value { result ≡ draw_line line.now }
    ensures exactly { Tells (IsLine line.now) result }
{
    drawing(line.strip_prefix(b"L ")?)
}

// The points that the words `x y ..` write. None where there are more than 64.
fn outline(text: Option<&[u8]>) -> Option<ArrayVec<(i32, i32), MOST_POINTS>>
    ensures value { option_map (λ points. points.items) result ≡ outline_of (pieces_after 32 text.entry) }
    ensures few { IfSome result (λ points. array_vec_len points ≤ 64) }
{
    let mut points = ArrayVec::new();
    let mut left = text;
    while let Some(words) = left {
        let (next, rest) = point(words)?;
        points.try_push(next).ok()?;
        left = rest;
    }
    Some(points)
}

// The width and the points that the words `width x y ..` write.
fn filling(text: &[u8]) -> Option<(u32, ArrayVec<(i32, i32), MOST_POINTS>)>
    ensures value { width_and_points result ≡ fill_of (pieces 32 text.now) }
    ensures few { IfSome result (λ a. array_vec_len a.1 ≤ 64) }
{
    let (word, rest) = cut(text, b' ');
    Some((number(word)?, outline(rest)?))
}

// The width and the points that a line `F width x y ..` asks for. None where it is not in its form or has more than 64 points.
#[tactic(auto, using(crate::proofs::ExactFill::fill_tells))]
pub fn read_fill(line: &[u8]) -> Option<(u32, ArrayVec<(i32, i32), MOST_POINTS>)>
    ensures value { width_and_points result ≡ fill_line line.now }
    ensures exactly { Tells (IsFill line.now) (width_and_points result) }
    ensures few { IfSome result (λ a. array_vec_len a.1 ≤ 64) }
{
    filling(line.strip_prefix(b"F ")?)
}
