// A stretch of neighbouring cells in one row.

// The number of its first place, and that of the place after its last.
#[derive(Clone, Copy, Debug, PartialEq, Eq)]
pub struct Run {
    pub first: usize,
    pub end: usize,
}
