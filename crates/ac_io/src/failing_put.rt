//! A put that is to fail.

/// A put that is to fail, and how many bytes it keeps.
#[derive(Drop)]
pub struct FailingPut {
    /// The number of the put, counted from 0.
    pub call: u64,
    /// How many bytes it keeps.
    pub keep: u64,
}
