// The sheet and what always holds of it.
ghost use Rattle.std.specs.Prelude.{◌≡◌, ◌*◌, ◌≤◌, true, vec_len, vec_capacity};
ghost use Rattle.dots.specs.Dots.{canonical};

use dots::pair::Pair;

pub mod backend;
mod bytes;
mod display;
mod ops;

// A sheet of dots, dark or light, with room for 4,096 pairs from the start, so that no draw asks for memory: the entries of a map would.
#[derive(Drop)]
pub struct RunSheet {
    size: (u32, u32),
    pairs: Vec<Pair>,
    // the pairs have their one form
    ghost canon: { canonical (size.0 * size.1) 0 pairs.items ≡ true },
    ghost few: { vec_len pairs ≤ 4096 },
    ghost room: { 4096 ≤ vec_capacity pairs },
    ghost wide: { size.0 ≤ 16384 },
    ghost high: { size.1 ≤ 16384 },
    ghost area: { size.0 * size.1 ≤ 268435456 },
}
