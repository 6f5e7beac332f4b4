//! Where a file stands.

/// Where a file stands on a medium.
#[derive(Clone, Copy)]
pub struct Extent {
    /// The number of its first block.
    pub first: usize,
    /// How many bytes it has.
    pub size: usize,
}
