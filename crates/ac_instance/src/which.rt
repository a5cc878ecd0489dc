//! The formulas of a pattern.

/// One of the formulas of a pattern: what it gives behind the run, or what holds at a loop, by its place in preorder.
#[derive(Clone, Copy)]
pub enum Which {
    Gives,
    Loop(u32),
}
