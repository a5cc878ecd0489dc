//! Why an evaluation has no answer.

/// Why an evaluation has no answer: its last read was outside, a number doesn't fit into 128 bits, or memory ran out.
#[derive(Clone, Copy)]
pub enum Stop {
    Outside,
    Wide,
    OutOfMemory,
}
