// A side on a sweep line, its place, and the whole numbers next to that.
ghost use Rattle.std.specs.Prelude.{◌≡◌, IsTrue, true, pos, if◌then◌else◌};
ghost use Rattle.std.specs.Float.Ieee.Scale.{finite};
ghost use Rattle.edges.specs.Side.{is_sound, Sound, place64, zero64, PlaceOf, floor_at, ceil_at};

use binary64::{ceil_to_i32, floor_to_i32};

// A side on a sweep line: it goes from slave_begin to slave_end in total_epoch steps, of which epoch are done.
#[derive(Clone, Copy)]
pub struct Edge {
    pub epoch: u32,
    pub total_epoch: u32,
    pub slave_begin: i32,
    pub slave_end: i32,
}

impl Edge {
    // Whether the side has a step at least, is not past its end, and its numbers are small enough to be placed.
    pub fn is_sound(&self) -> bool
        ensures { result ≡ is_sound self.now }
    {
        0 < self.total_epoch
            && self.total_epoch <= 65534
            && self.epoch <= self.total_epoch
            && -32767 <= self.slave_begin
            && self.slave_begin <= 32767
            && -32767 <= self.slave_end
            && self.slave_end <= 32767
    }

    // The binary64 place of the side: the quotient is rounded to nearest, and then the sum. It is 0.0 where the side is not sound.
    pub fn get_slave_pos(&self) -> f64
        ensures value { result ≡ (if is_sound self.now then place64 self.now else zero64) }
        ensures nearest { Sound self.now → PlaceOf self.now result }
        ensures finite { IsTrue (finite result) }
    {
        if !self.is_sound() {
            return 0.0;
        }
        let way = (self.slave_end - self.slave_begin) as i64 * self.epoch as i64;
        f64::from(self.slave_begin) + way as f64 / f64::from(self.total_epoch)
    }

    // The greatest whole number that is at most the exact place of the side, or 0 where the side is not sound.
    pub fn floor(&self) -> i32
        ensures { result ≡ (if is_sound self.now then floor_at self.now else pos 0) }
    {
        floor_to_i32(self.get_slave_pos())
    }

    // The least whole number that is at least the exact place of the side, or 0 where the side is not sound.
    pub fn ceil(&self) -> i32
        ensures { result ≡ (if is_sound self.now then ceil_at self.now else pos 0) }
    {
        ceil_to_i32(self.get_slave_pos())
    }
}
