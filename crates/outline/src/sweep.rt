// What an outline is swept by.

// A side between two corners, from (m0, s0) to (m1, s1), with the sweep coordinate first and m0 ≤ m1.
#[derive(Clone, Copy)]
pub struct Side {
    pub m0: i32,
    pub s0: i32,
    pub m1: i32,
    pub s1: i32,
}
