// The panel: its size, and the memory that it is lent.
ghost use Rattle.std.specs.Prelude.{◌≡◌, length};
ghost use Rattle.panel.specs.Picture.{cell_at, picture_of, shown, size_check, start_at};

use crate::blend::three_of;
use plotters_backend::BackendCoord;
use plotters_backend::error::Refusal;
use plotters_backend::size::{check_size, index_of};

pub mod backend;

// A picture in memory that is lent: three bytes a cell, red, green and blue, row after row.
#[derive(Drop)]
pub struct Panel<'a> {
    size: (u32, u32),
    bytes: &'a mut [u8],
}

// The size, or 0 by 0 where it would be refused.
fn shown_of(size: (u32, u32), bytes: usize) -> (u32, u32)
    ensures { result ≡ shown size bytes }
{
    if Panel::check(size, bytes).is_ok() {
        size
    } else {
        (0, 0)
    }
}

impl<'a> Panel<'a> {
    // Refused where a side is 0 or above 16,384, or the bytes are fewer than three a cell: to be asked before a panel is made.
    pub fn check(size: (u32, u32), bytes: usize) -> Result<(), Refusal>
        ensures { result ≡ size_check size bytes }
    {
        check_size(size)?;
        let (w, h) = size;
        if bytes < 3 * (w as usize * h as usize) {
            return Err(Refusal::Size);
        }
        Ok(())
    }

    // A panel over some memory; 0 by 0 where the check would refuse it.
    pub fn new(size: (u32, u32), bytes: &'a mut [u8]) -> Panel<'a>
        ensures shows { result.size ≡ shown size (length bytes.old) }
        ensures memory { result.bytes.now ≡ bytes.old }
        ensures loan { result.bytes.ghost_name ≡ bytes.entry.ghost_name }
    {
        Panel {
            size: shown_of(size, bytes.len()),
            bytes,
        }
    }

    // Where the bytes of a point begin; none outside the panel.
    fn start(&self, point: BackendCoord) -> Option<usize>
        ensures { result ≡ start_at (picture_of self.now.size self.now.bytes.now) point }
    {
        let index = index_of(shown_of(self.size, self.bytes.len()), point)?;
        Some(3 * index)
    }

    // The red, green and blue of a cell; none outside the panel.
    pub fn cell(&self, point: BackendCoord) -> Option<(u8, u8, u8)>
        ensures { result ≡ cell_at (picture_of self.now.size self.now.bytes.now) point }
    {
        let at = self.start(point)?;
        Some(three_of(self.bytes, at))
    }
}
