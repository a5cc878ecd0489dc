//! Facts on differences, and answers about them.

/// A difference constraint: it says that `plus - minus` is at most the bound. A side is the number of a unit, or 0 where there is none.
#[derive(Clone, Copy)]
pub struct Diff {
    pub plus: Option<usize>,
    pub minus: Option<usize>,
    pub bound: i128,
}

/// A point gives each unit its number. A cycle lists the numbers of facts that contradict.
#[derive(Drop)]
pub enum DiffAnswer {
    Point(Vec<i128>),
    Cycle(Vec<usize>),
}
