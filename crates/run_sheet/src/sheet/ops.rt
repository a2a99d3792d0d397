// Making a sheet, reading it, and laying one dot.
ghost use Rattle.std.specs.Prelude.{◌≡◌, ◌<◌, ◌≤◌, true, false, length, take, drop, IfOk, slice_index_or};
ghost use Rattle.plotters_backend.specs.Sizes.{size_check};
ghost use Rattle.dots.specs.Dots.{pairs_of};
ghost use Rattle.dots.specs.Finding.{reach, starts_at, up_to};
ghost use Rattle.dots.specs.Grid.{dot_at, light, offset_at, whole};
ghost use Rattle.run_sheet.specs.Sheets.{Lays, OneForm, area, grid_of, held};

use crate::sheet::RunSheet;
use dots::fault::SheetFault;
use dots::pair::Pair;
use plotters_backend::error::Refusal;
use plotters_backend::{BackendCoord, size};
use std::alloc::{AllocError, Global};

// The most pairs that a sheet holds. There is room for them from the start, so no insertion of one asks for memory.
const MOST: usize = 4096;

impl RunSheet {
    // Refused where a side is 0 or above 16,384: to be asked before a sheet is made.
    pub fn check_size(size: (u32, u32)) -> Result<(), Refusal>
        ensures { result ≡ size_check size }
    {
        size::check_size(size)
    }

    // The size of a sheet made anew: 0 by 0 where the one asked for would be refused.
    fn granted(size: (u32, u32)) -> (u32, u32)
        ensures { result ≡ (light size).size }
    {
        RunSheet::check_size(size).map_or((0, 0), |()| size)
    }

    // A light sheet; 0 by 0 where the size would be refused.
    pub fn new(heap: Global, size: (u32, u32)) -> Result<RunSheet, AllocError>
        ensures { IfOk result (λ s. grid_of s ≡ light size) }
    {
        let pairs = Vec::with_capacity(heap, MOST)?;
        Ok(RunSheet {
            size: RunSheet::granted(size),
            pairs,
        })
    }

    // Makes the sheet anew in a size, light, in the room that it has; 0 by 0 where the size would be refused.
    pub fn reset(&mut self, size: (u32, u32))
        ensures { grid_of self.new ≡ light size }
    {
        self.pairs.clear();
        self.size = RunSheet::granted(size);
    }

    // The pairs: those of the dots, in the one form that dots have.
    pub fn pairs(&self) -> &[Pair]
        ensures value { result.now ≡ pairs_of (grid_of self.now).dots }
        ensures form { OneForm (grid_of self.now) result.now }
        ensures few { length result.now ≤ 4096 }
        ensures whole { whole (grid_of self.now) ≡ true }
    {
        self.pairs.as_slice()
    }

    // The offset of a point; none outside the sheet.
    pub(super) fn offset(&self, point: BackendCoord) -> Option<u32>
        ensures { result ≡ offset_at (grid_of self.now) point }
    {
        Some(size::index_of(self.size, point)? as u32)
    }

    // The dot at a point, dark where it is true; none outside the sheet.
    pub fn dot(&self, point: BackendCoord) -> Option<bool>
        ensures { result ≡ dot_at (grid_of self.now) point }
    {
        Some(self.get(self.offset(point)?))
    }

    // How many pairs begin at the offset or before it.
    fn place(&self, offset: u32) -> usize
        ensures { result ≡ up_to (held self.now) offset }
    {
        self.pairs.partition_point(|pair| pair.offset <= offset)
    }

    // The dot at an offset. That the offset lies in the sheet is a fact of both, so each function that takes one asks for it.
    fn get(&self, offset: u32) -> bool
        requires { offset < area self.now }
        ensures { result ≡ slice_index_or (grid_of self.now).dots offset false }
    {
        let i = self.place(offset);
        self.pairs[..i]
            .last()
            .is_some_and(|left| offset < left.offset + left.len)
    }

    // Whether there is a pair at i, and it begins at the offset.
    fn begins(&self, i: usize, offset: u32) -> bool
        ensures { result ≡ starts_at (drop i (held self.now)) offset }
    {
        self.pairs.get(i).is_some_and(|pair| pair.offset == offset)
    }

    // Makes a dot dark that touches no pair before it; i pairs begin before it.
    fn darken_free(&mut self, i: usize, offset: u32) -> Result<(), SheetFault>
        requires placed { i ≡ up_to (held self.old) offset }
        requires within { offset < area self.old }
        requires apart { reach 0 (take i (held self.old)) ≤ offset }
        ensures { Lays self.old self.new offset true result }
    {
        if self.begins(i, offset + 1) {
            let right = self.pairs[i];
            self.pairs[i] = Pair {
                offset,
                len: right.len + 1,
            };
            return Ok(());
        }
        if self.pairs.len() == MOST {
            return Err(SheetFault::Full);
        }
        let _ = self.pairs.insert(i, Pair { offset, len: 1 });
        Ok(())
    }

    // Makes a dot dark.
    fn darken(&mut self, offset: u32) -> Result<(), SheetFault>
        requires { offset < area self.old }
        ensures { Lays self.old self.new offset true result }
    {
        let i = self.place(offset);
        if i == 0 {
            return self.darken_free(i, offset);
        }
        let left = self.pairs[i - 1];
        let end = left.offset + left.len;
        if offset < end {
            return Ok(());
        }
        if end < offset {
            return self.darken_free(i, offset);
        }
        if self.begins(i, offset + 1) {
            let right = self.pairs.remove(i);
            self.pairs[i - 1].len += 1 + right.len;
            return Ok(());
        }
        self.pairs[i - 1].len += 1;
        Ok(())
    }

    // Makes a dot light.
    fn lighten(&mut self, offset: u32) -> Result<(), SheetFault>
        requires { offset < area self.old }
        ensures { Lays self.old self.new offset false result }
    {
        let i = self.place(offset);
        if i == 0 {
            return Ok(());
        }
        let left = self.pairs[i - 1];
        let end = left.offset + left.len;
        if end <= offset {
            return Ok(());
        }
        let before = offset - left.offset;
        let after = Pair {
            offset: offset + 1,
            len: end - (offset + 1),
        };
        if before == 0 {
            if after.len == 0 {
                let _ = self.pairs.remove(i - 1);
                return Ok(());
            }
            self.pairs[i - 1] = after;
            return Ok(());
        }
        if after.len == 0 {
            self.pairs[i - 1].len = before;
            return Ok(());
        }
        if self.pairs.len() == MOST {
            return Err(SheetFault::Full);
        }
        let _ = self.pairs.insert(i, after);
        self.pairs[i - 1].len = before;
        Ok(())
    }

    // Lays a dot, dark or light; refused where that would leave more than 4,096 pairs.
    pub(super) fn lay(&mut self, offset: u32, dark: bool) -> Result<(), SheetFault>
        requires { offset < area self.old }
        ensures { Lays self.old self.new offset dark result }
    {
        if dark {
            self.darken(offset)
        } else {
            self.lighten(offset)
        }
    }
}
