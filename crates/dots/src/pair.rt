// One pair of a sheet: `len` dark dots from `offset` on.
#[derive(Clone, Copy)]
pub struct Pair {
    pub offset: u32,
    pub len: u32,
}
