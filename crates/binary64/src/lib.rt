//! What lines and sides need of binary64 numbers: a gradient, and the whole numbers next to a height or a place.
#![tactic(auto)]

ghost use Rattle.std.specs.Prelude.{◌≡◌, ℕ, ◌^◌, ◌<◌, ◌≤◌, pos, ◌<ℤ◌, unsigned_abs};
ghost use Rattle.std.specs.Float.Ieee.{to_signed};
ghost use Rattle.std.specs.Float.{ceil, floor, binary64};
ghost use Rattle.binary64.specs.Range.{Sized, floor_z};
ghost use Rattle.binary64.specs.Slope.{slope};
ghost use Rattle.binary64.specs.Fraction.{NearestSlope};

use std::num::saturating_f64_to_i32;

/// The gradient of a line that goes `rise` down while it goes `run` across, rounded once.
pub fn gradient(run: i32, rise: i32) -> f64
    ensures value { result ≡ slope rise run }
    ensures sized { pos 0 <ℤ run → unsigned_abs rise ≤ unsigned_abs run → Sized 1 result }
    ensures nearest { pos 0 <ℤ run → NearestSlope rise run result }
{
    f64::from(rise) / f64::from(run)
}

/// The whole number at or next below `y`, held to the ends of 32 bits.
pub fn floor_to_i32(y: f64) -> i32
    ensures value { result ≡ to_signed 31 (floor binary64 y) }
    ensures exact { (a : ℕ) → a < 2 ^ 31 → Sized a y → (result ≡ floor_z y) × (unsigned_abs result ≤ a) }
{
    saturating_f64_to_i32(y.floor())
}

/// The whole number at or next above `y`, held to the ends of 32 bits.
pub fn ceil_to_i32(y: f64) -> i32
    ensures { result ≡ to_signed 31 (ceil binary64 y) }
{
    saturating_f64_to_i32(y.ceil())
}
